// Which calls are admitted: each question answers what a call needs, or the refusal that the rules give.
ghost use Rattle.std.specs.Prelude.{◌≡◌, ℕ, ◌<◌, true, IfOk};
ghost use Rattle.rules.specs.declared.Mode.{Mode as AnyMode};
ghost use Rattle.rules.specs.declared.Call.TheVariants.{Begin, Take, Look, Change, Commit, GiveUp, Again, Standing as StandingCall};
ghost use Rattle.rules.specs.Operations.{bonds, behind_bond};
ghost use Rattle.rules.specs.Calls.{state_of, stamp_of as stamp_told, awaited, standing_of};
ghost use Rattle.locks.specs.View.{bare, phase_of, stamp_of};
ghost use Rattle.locks.specs.Admission.{refused, not_running, no_record, admitted, refusal_in, HoldOf};

use crate::station::{Phase, Station};
use crate::table::{LAST_STAMP, LockTable};
use rules::{Mode, Refusal, Stage, Standing, State};

// The state of a station in this phase.
impl From<Phase> for State {
    ghost from_gives = { λ phase state. state ≡ state_of (phase_of phase) };

    fn from(phase: Phase) -> State {
        match phase {
            Phase::Idle => State::Idle,
            Phase::Running(_) => State::Running,
            Phase::Waiting(..) => State::Waiting,
            Phase::Wounded(_) => State::Wounded,
        }
    }
}

impl Phase {
    // The stamp of the attempt, unless the station is idle.
    fn attempt(self) -> Option<u32>
        ensures { result ≡ stamp_told (phase_of self) (stamp_of self) }
    {
        match self {
            Phase::Idle => None,
            Phase::Running(stamp) | Phase::Waiting(stamp, ..) | Phase::Wounded(stamp) => {
                Some(stamp)
            }
        }
    }

    // The record that the station waits for, if it waits.
    fn awaits(self) -> Option<u32>
        ensures { result ≡ awaited (phase_of self) }
    {
        match self {
            Phase::Waiting(_, at, _) => Some(at),
            Phase::Idle | Phase::Running(_) | Phase::Wounded(_) => None,
        }
    }
}

impl LockTable {
    // The station of this number, where there is one: all that standing needs.
    fn station(&self, s: u32) -> Result<usize, Refusal>
        ensures { result ≡ admitted s (refused 0 (StandingCall s) self.now 0) }
    {
        if s < 16 {
            Ok(s as usize)
        } else {
            Err(Refusal::Station)
        }
    }

    // A begin: the station, which is idle, while there is a stamp.
    pub fn admit_begin(&self, s: u32) -> Result<usize, Refusal>
        ensures { result ≡ admitted s (refused 0 (Begin s) self.now 0) }
    {
        let i = self.station(s)?;
        match self.stations[i].phase {
            Phase::Idle if self.next > LAST_STAMP => Err(Refusal::Spent),
            Phase::Idle => Ok(i),
            Phase::Running(_) | Phase::Waiting(..) | Phase::Wounded(_) => Err(Refusal::Busy),
        }
    }

    // The station, which runs.
    fn admit_running(&self, s: u32) -> Result<usize, Refusal>
        ensures { result ≡ admitted s (not_running self.now s) }
    {
        let i = self.station(s)?;
        match self.stations[i].phase {
            Phase::Idle => Err(Refusal::Idle),
            Phase::Running(_) => Ok(i),
            Phase::Waiting(..) => Err(Refusal::Waiting),
            Phase::Wounded(_) => Err(Refusal::Wounded),
        }
    }

    // A give up: the station, which is not idle.
    pub fn admit_give_up(&self, s: u32) -> Result<usize, Refusal>
        ensures { result ≡ admitted s (refused 0 (GiveUp s) self.now 0) }
    {
        let i = self.station(s)?;
        match self.stations[i].phase {
            Phase::Idle => Err(Refusal::Idle),
            Phase::Running(_) | Phase::Waiting(..) | Phase::Wounded(_) => Ok(i),
        }
    }

    // An again: the station, which is wounded.
    pub fn admit_again(&self, s: u32) -> Result<usize, Refusal>
        ensures { result ≡ admitted s (refused 0 (Again s) self.now 0) }
    {
        let i = self.station(s)?;
        match self.stations[i].phase {
            Phase::Idle | Phase::Running(_) | Phase::Waiting(..) => Err(Refusal::Sound),
            Phase::Wounded(_) => Ok(i),
        }
    }

    // The station, which runs, where there is such a record.
    fn admit_record(&self, s: u32, at: u32, records: u32) -> Result<usize, Refusal>
        ensures { result ≡ admitted s (no_record self.now s at records) }
    {
        let i = self.admit_running(s)?;
        if at >= records {
            Err(Refusal::Record)
        } else {
            Ok(i)
        }
    }

    // A take: the station, which runs, does not hold the record and has room in its hand.
    pub fn admit_take(&self, s: u32, at: u32, records: u32) -> Result<usize, Refusal>
        ensures { (m : AnyMode) → result ≡ admitted s (refused 0 (Take s at m) self.now records) }
    {
        let i = self.admit_record(s, at, records)?;
        if self.stations[i].holds(at) {
            return Err(Refusal::Held);
        }
        if self.stations[i].hand.is_full() {
            Err(Refusal::Hand)
        } else {
            Ok(i)
        }
    }

    // A look or a retire: the station, which runs, and the place of its owned hold on the record.
    pub fn admit_hold(&self, s: u32, at: u32, records: u32) -> Result<(usize, usize), Refusal>
        ensures refusal { refusal_in result ≡ refused 0 (Look s at) self.now records }
        ensures place { IfOk result (HoldOf self.now s at) }
    {
        let i = self.admit_record(s, at, records)?;
        let Some(k) = self.stations[i].place_on(at) else {
            return Err(Refusal::Unowned);
        };
        match self.stations[i].hand[k].stage {
            Stage::Owned => Ok((i, k)),
            Stage::Retired => Err(Refusal::Unowned),
        }
    }

    // A change: the station, which runs, and the place of its owned hold on the record, which is exclusive.
    pub fn admit_change(&self, s: u32, at: u32, records: u32) -> Result<(usize, usize), Refusal>
        ensures refusal { refusal_in result ≡ refused 0 (Change s at tt) self.now records }
        ensures place { IfOk result (HoldOf self.now s at) }
    {
        let (i, k) = self.admit_hold(s, at, records)?;
        match self.stations[i].hand[k].mode {
            Mode::Shared => Err(Refusal::Shared),
            Mode::Exclusive => Ok((i, k)),
        }
    }

    // A commit: the station, which runs and has no bonds. A refusal names a station behind a bond.
    pub fn admit_commit(&self, s: u32) -> Result<usize, Refusal>
        ensures { (named : ℕ) × (0 < bonds (bare self.now.stations) s → behind_bond (bare self.now.stations) s named ≡ true) × (result ≡ admitted s (refused named (Commit s) self.now 0)) }
    {
        let i = self.admit_running(s)?;
        match self.blocker(i) {
            Some(j) => Err(Refusal::Bound {
                bonds: self.bonds(i),
                station: j as u32,
            }),
            None => Ok(i),
        }
    }

    // What standing tells of a station.
    pub fn standing(&self, s: u32) -> Result<Standing, Refusal>
        ensures { result ≡ admitted (standing_of (bare self.now.stations) s) (refused 0 (StandingCall s) self.now 0) }
    {
        let i = self.station(s)?;
        let phase = self.stations[i].phase;
        Ok(Standing {
            state: State::from(phase),
            stamp: phase.attempt(),
            bonds: self.bonds(i),
            awaits: phase.awaits(),
        })
    }
}
