// The plain numbers of a timing, as the host keeps them in its memory.
ghost use Rattle.std.specs.Prelude.{◌≡◌, Some, codes};
ghost use Rattle.values.specs.Timings.{timing_numbers, timing_read};

use super::{LONGEST, Link, Timing};
use std::error::Error;
use std::fmt;

// The link is 0 by hand, 1 after the previous cue, 2 with it: a number, since the host's memory may hold any.
#[repr(C)]
#[derive(Clone, Copy, PartialEq, Eq, Debug)]
pub struct TimingNumbers {
    pub up: u16,
    pub down: u16,
    pub wait: u16,
    pub link: u8,
}

// The refusal of numbers that no timing has.
#[derive(Clone, Copy, PartialEq, Eq, Debug)]
pub struct NotATiming;

impl From<Timing> for TimingNumbers {
    ghost from_gives = { λ v n. n ≡ timing_numbers v };

    fn from(v: Timing) -> TimingNumbers {
        TimingNumbers {
            up: v.up,
            down: v.down,
            wait: v.wait,
            link: u8::from(v.link),
        }
    }
}

impl TryFrom<TimingNumbers> for Timing {
    type Error = NotATiming;

    ghost try_from_gives = { λ n r. r ≡ timing_read n };

    fn try_from(n: TimingNumbers) -> Result<Timing, NotATiming> {
        let TimingNumbers {
            up,
            down,
            wait,
            link,
        } = n;
        match Link::try_from(link) {
            Ok(link) if up <= LONGEST && down <= LONGEST && wait <= LONGEST => {
                Ok(Timing {
                    up,
                    down,
                    wait,
                    link,
                })
            }
            _ => Err(NotATiming),
        }
    }
}

impl fmt::Display for NotATiming {
    ghost output = { λ _. Some (codes "no timing has these numbers") };

    fn fmt<W: fmt::Write>(&self, f: &mut fmt::Formatter<W>) -> fmt::Result {
        write!(f, "no timing has these numbers")
    }
}

impl Error for NotATiming {}
