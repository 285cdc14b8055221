// What starts a cue, and its number.
ghost use Rattle.std.specs.Prelude.{◌≡◌, ◌++◌, Some, codes, decimal};
ghost use Rattle.values.specs.Links.{link_number, link_read};

use std::error::Error;
use std::fmt;

// The operator's hand, the end of the previous cue, or the previous cue's own start.
#[derive(Clone, Copy, PartialEq, Eq, Debug)]
pub enum Link {
    ByHand,
    AfterPrevious,
    WithPrevious,
}

// A number that no link has.
#[derive(Clone, Copy, PartialEq, Eq, Debug)]
pub struct UnknownLink(pub u8);

impl From<Link> for u8 {
    ghost from_gives = { λ l n. n ≡ link_number l };

    fn from(l: Link) -> u8 {
        match l {
            Link::ByHand => 0,
            Link::AfterPrevious => 1,
            Link::WithPrevious => 2,
        }
    }
}

impl TryFrom<u8> for Link {
    type Error = UnknownLink;

    ghost try_from_gives = { λ n r. r ≡ link_read n };

    fn try_from(n: u8) -> Result<Link, UnknownLink> {
        match n {
            0 => Ok(Link::ByHand),
            1 => Ok(Link::AfterPrevious),
            2 => Ok(Link::WithPrevious),
            _ => Err(UnknownLink(n)),
        }
    }
}

impl fmt::Display for UnknownLink {
    ghost output = { λ e. Some (codes "no link has number " ++ decimal e.0) };

    fn fmt<W: fmt::Write>(&self, f: &mut fmt::Formatter<W>) -> fmt::Result {
        write!(f, "no link has number {}", self.0)
    }
}

impl Error for UnknownLink {}
