// The kinds by name, for what asks for a kind by its number or by its word.
ghost use Rattle.std.specs.Prelude.{◌≡◌, ◌++◌, Some, codes, decimal};
ghost use Rattle.values.specs.Names.{kind_number, kind_word, Numbered, Worded};

use crate::kind::Kind;
use crate::level::Levels;
use crate::timing::Timings;
use std::error::Error;
use std::fmt;
use std::str::FromStr;

#[derive(Clone, Copy, PartialEq, Eq, Debug)]
pub enum KindName {
    Level,
    Timing,
}

// A number that no kind has.
#[derive(Clone, Copy, PartialEq, Eq, Debug)]
pub struct UnknownKind(pub u32);

// The refusal of a word that is no kind's; its text says which words there are.
#[derive(Clone, Copy, PartialEq, Eq, Debug)]
pub struct UnknownWord;

impl From<KindName> for u32 {
    ghost from_gives = { λ name n. n ≡ kind_number name };

    fn from(name: KindName) -> u32 {
        match name {
            KindName::Level => u32::from(Levels::NUMBER),
            KindName::Timing => u32::from(Timings::NUMBER),
        }
    }
}

impl TryFrom<u32> for KindName {
    type Error = UnknownKind;

    ghost try_from_gives = { Numbered };

    fn try_from(number: u32) -> Result<KindName, UnknownKind> {
        match number {
            1 => Ok(KindName::Level),
            2 => Ok(KindName::Timing),
            _ => Err(UnknownKind(number)),
        }
    }
}

impl fmt::Display for KindName {
    ghost output = { λ name. Some (kind_word name) };

    fn fmt<W: fmt::Write>(&self, f: &mut fmt::Formatter<W>) -> fmt::Result {
        f.write_str(match self {
            KindName::Level => "level",
            KindName::Timing => "timing",
        })
    }
}

impl FromStr for KindName {
    type Err = UnknownWord;

    ghost from_str_gives = { Worded };

    fn from_str(word: &str) -> Result<KindName, UnknownWord> {
        match word {
            "level" => Ok(KindName::Level),
            "timing" => Ok(KindName::Timing),
            _ => Err(UnknownWord),
        }
    }
}

impl fmt::Display for UnknownKind {
    ghost output = { λ e. Some (codes "no kind has number " ++ decimal e.0) };

    fn fmt<W: fmt::Write>(&self, f: &mut fmt::Formatter<W>) -> fmt::Result {
        write!(f, "no kind has number {}", self.0)
    }
}

impl fmt::Display for UnknownWord {
    ghost output = { λ _. Some (codes "level or timing") };

    fn fmt<W: fmt::Write>(&self, f: &mut fmt::Formatter<W>) -> fmt::Result {
        write!(f, "level or timing")
    }
}

impl Error for UnknownKind {}

impl Error for UnknownWord {}
