// Questions to one station: what it does, and the holds in its hand.
ghost use Rattle.std.specs.Prelude.{◌≡◌, ◌<◌, length, is_some, IfSome};
ghost use Rattle.std.specs.Option.{option_map};
ghost use Rattle.rules.specs.declared.Mode.TheVariants.{Shared};
ghost use Rattle.rules.specs.Tables.{is_waiting, is_wounded, is_owned, conflict, conflicts, owned_conflicts, hold_on, draft_in, waits_for};
ghost use Rattle.rules.specs.Operations.{exclusive_in_common};
ghost use Rattle.locks.specs.Hand.{no_hold};
ghost use Rattle.locks.specs.View.{phase_of, stamp_of, active, awaited_in, hand_with, place_on, hold_in, held_by};

use crate::station::{Hold, Phase, Station};
use rules::{Mode, Stage};

impl Hold {
    // Whether the hold is exclusive: it conflicts with a shared one.
    fn is_exclusive(&self) -> bool
        ensures { result ≡ conflict Shared self.now.mode }
    {
        self.mode == Mode::Exclusive
    }

    // Whether the station still owns the record.
    fn is_owned(&self) -> bool
        ensures { result ≡ is_owned self.now.stage }
    {
        self.stage == Stage::Owned
    }

    // Whether the hold conflicts with one in this mode: two modes conflict unless both are shared.
    fn conflicts(&self, mode: Mode) -> bool
        ensures { result ≡ conflict mode self.now.mode }
    {
        !matches!((mode, self.mode), (Mode::Shared, Mode::Shared))
    }
}

impl Station {
    // The stamp of the attempt; 0 where there is none. No Option: the rules compare stamps, and give an idle station 0.
    pub(crate) fn stamp(&self) -> u32
        ensures { result ≡ stamp_of self.now.phase }
    {
        match self.phase {
            Phase::Idle => 0,
            Phase::Running(stamp) | Phase::Waiting(stamp, _, _) | Phase::Wounded(stamp) => stamp,
        }
    }

    // Whether there is an attempt.
    pub(crate) fn has_attempt(&self) -> bool
        ensures { result ≡ active self.now }
    {
        !matches!(self.phase, Phase::Idle)
    }

    // Whether the station waits.
    pub(crate) fn waits(&self) -> bool
        ensures { result ≡ is_waiting (phase_of self.now.phase) }
    {
        matches!(self.phase, Phase::Waiting(..))
    }

    // Whether the attempt was wounded.
    pub(crate) fn is_wounded(&self) -> bool
        ensures { result ≡ is_wounded (phase_of self.now.phase) }
    {
        matches!(self.phase, Phase::Wounded(_))
    }

    // What the station waits for, if it waits.
    pub(crate) fn awaited(&self) -> Option<(u32, Mode)>
        ensures { result ≡ awaited_in self.now.phase }
    {
        match self.phase {
            Phase::Waiting(_, at, mode) => Some((at, mode)),
            _ => None,
        }
    }

    // Whether the station waits for the record.
    pub(crate) fn waits_for(&self, at: u32) -> bool
        ensures { result ≡ waits_for (phase_of self.now.phase) at }
    {
        matches!(self.phase, Phase::Waiting(_, awaited, _) if awaited == at)
    }

    // The place of the hold on a record.
    pub(crate) fn place_on(&self, at: u32) -> Option<usize>
        ensures place { result ≡ place_on at self.now.hand.items (length self.now.hand.items) }
        ensures within { IfSome result (λ k. k < length self.now.hand.items) }
    {
        self.hand.iter().rposition(|hold| hold.at == at)
    }

    // The hold on a record.
    fn hold_on(&self, at: u32) -> Option<Hold>
        ensures { result ≡ hold_in at self.now }
    {
        self.place_on(at).map(|k| self.hand[k])
    }

    // Whether the station holds the record.
    pub(crate) fn holds(&self, at: u32) -> bool
        ensures { result ≡ is_some (hold_on at (held_by self.now)) }
    {
        self.hold_on(at).is_some()
    }

    // The place of an exclusive hold on the record: its draft, if each draft is its own place.
    pub(crate) fn exclusive_on(&self, at: u32) -> Option<usize>
        ensures within { IfSome result (λ k. k < length self.now.hand.items) }
        ensures place { result ≡ draft_in (hold_on at (hand_with (λ k. k) self.now.hand.items (length self.now.hand.items))) }
    {
        self.place_on(at).filter(|k| self.hand[*k].is_exclusive())
    }

    // Whether the station holds the record in a mode that conflicts.
    pub(crate) fn conflicts_on(&self, at: u32, mode: Mode) -> bool
        ensures { result ≡ conflicts mode (hold_on at (held_by self.now)) }
    {
        self.hold_on(at).is_some_and(|hold| hold.conflicts(mode))
    }

    // Whether the station owns the record in a mode that conflicts.
    pub(crate) fn owned_conflicts_on(&self, at: u32, mode: Mode) -> bool
        ensures { result ≡ owned_conflicts mode (hold_on at (held_by self.now)) }
    {
        self.hold_on(at)
            .is_some_and(|hold| hold.is_owned() && hold.conflicts(mode))
    }

    // Whether the other station holds a record that this one holds exclusively.
    pub(crate) fn exclusive_in_common(&self, other: &Station) -> bool
        ensures { result ≡ exclusive_in_common (held_by self.now) (held_by other.now) }
    {
        self.hand
            .iter()
            .any(|hold| hold.is_exclusive() && other.holds(hold.at))
    }
}
