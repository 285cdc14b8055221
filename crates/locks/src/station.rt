// What the lock table keeps of a station: what it does, and the holds of its attempt.
ghost use Rattle.std.specs.Prelude.{◌≡◌};
ghost use Rattle.locks.specs.View.{no_station};

use crate::hand::Hand;
use rules::{Mode, Stage};

// One hold: the record, how it is held, and how far it has come. Its draft lies in the drafts shelf.
#[derive(Clone, Copy)]
pub struct Hold {
    pub at: u32,
    pub mode: Mode,
    pub stage: Stage,
}

// What the unused places of a hand hold. Not derived: in the rules no mode and no stage is a default.
impl Default for Hold {
    ghost use Rattle.locks.specs.Hand.{no_hold};

    ghost is_default = { λ h. h ≡ no_hold };

    fn default() -> Hold {
        Hold {
            at: 0,
            mode: Mode::Shared,
            stage: Stage::Owned,
        }
    }
}

// What a station does, with the stamp of its attempt. One that waits has the record and the mode too.
#[derive(Clone, Copy)]
pub enum Phase {
    Idle,
    Running(u32),
    Waiting(u32, u32, Mode),
    Wounded(u32),
}

// The holds of a hand are in the order of their grants.
#[derive(Clone, Copy)]
pub struct Station {
    pub phase: Phase,
    pub hand: Hand,
}

impl Station {
    // An idle station.
    pub(crate) fn new() -> Station
        ensures { result ≡ no_station }
    {
        Station {
            phase: Phase::Idle,
            hand: Hand::new(),
        }
    }
}
