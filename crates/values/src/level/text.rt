// A level as text: its number.
ghost use Rattle.std.specs.Prelude.{Some};
ghost use Rattle.values.specs.Texts.{level_text};

use super::Level;
use std::fmt;

impl fmt::Display for Level {
    ghost output = { λ v. Some (level_text v) };

    fn fmt<W: fmt::Write>(&self, f: &mut fmt::Formatter<W>) -> fmt::Result {
        write!(f, "{}", self.value)
    }
}
