// Changes of one station.
ghost use Rattle.std.specs.Prelude.{◌≡◌};
ghost use Rattle.locks.specs.View.{HasRoom};
ghost use Rattle.locks.specs.Changes.{freed, started, wounded, awaiting, granted, again, retired_at};

use crate::station::{Hold, Phase, Station};
use rules::{Mode, Stage};

impl Station {
    // No attempt any more; the hand is empty.
    pub(crate) fn free(&mut self)
        ensures { self.new ≡ freed self.old }
    {
        self.phase = Phase::Idle;
        self.hand.clear();
    }

    // An attempt runs under the stamp, with an empty hand.
    pub(crate) fn start(&mut self, stamp: u32)
        ensures { self.new ≡ started stamp self.old }
    {
        self.phase = Phase::Running(stamp);
        self.hand.clear();
    }

    // All holds and the wait of the attempt go; an idle station has none.
    pub(crate) fn wound(&mut self)
        ensures { self.new ≡ wounded self.old }
    {
        self.hand.clear();
        self.phase = match self.phase {
            Phase::Idle => Phase::Idle,
            Phase::Running(stamp) | Phase::Waiting(stamp, _, _) | Phase::Wounded(stamp) =>
                Phase::Wounded(stamp),
        };
    }

    // A running attempt waits for the record, where its hand has room.
    pub(crate) fn wait(&mut self, at: u32, mode: Mode)
        ensures { self.new ≡ awaiting at mode self.old }
    {
        if let Phase::Running(stamp) = self.phase {
            if !self.hand.is_full() {
                self.phase = Phase::Waiting(stamp, at, mode);
            }
        }
    }

    // What the attempt waits for becomes an owned hold at the next place.
    pub(crate) fn grant(&mut self)
        requires { HasRoom self.old }
        ensures { self.new ≡ granted self.old }
    {
        if let Phase::Waiting(stamp, at, mode) = self.phase {
            let hold = Hold {
                at,
                mode,
                stage: Stage::Owned,
            };
            let _ = self.hand.push(hold);
            self.phase = Phase::Running(stamp);
        }
    }

    // A wounded attempt starts again under its stamp.
    pub(crate) fn again(&mut self)
        ensures { self.new ≡ again self.old }
    {
        if let Phase::Wounded(stamp) = self.phase {
            self.start(stamp);
        }
    }

    // The hold at a place is retired.
    pub(crate) fn retire(&mut self, k: usize)
        ensures { self.new ≡ retired_at k self.old }
    {
        if let Some(hold) = self.hand.get(k).copied() {
            let stage = Stage::Retired;
            self.hand.replace(k, Hold { stage, ..hold });
        }
    }
}
