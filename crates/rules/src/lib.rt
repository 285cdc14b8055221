//! The rules of the lock table: the words that the engine and its law share.
//!
//! This crate has no running code but the number of a refusal. Its types are those of the engine's calls and answers; its
//! `specs/` say what each call answers and leaves, and the functions at the end name the theorems that are proved of it.

#![tactic(auto)]

ghost use Rattle.std.specs.Prelude.{◌≡◌};
ghost use Rattle.rules.specs.Calls.{refusal_number};
ghost use Rattle.rules.specs.Cases.{CasesHold, MisreadingsHeldOff};
ghost use Rattle.rules.specs.Naming.{NamingIsFree};
ghost use Rattle.rules.specs.Widening.{WideningIsLeast};

/// How a record is held: with others that only look, or alone, to change it.
#[derive(Clone, Copy, PartialEq, Eq, Debug)]
pub enum Mode {
    /// Looks at the record; two shared holds do not conflict.
    Shared,
    /// Changes the record in a draft; conflicts with every other hold.
    Exclusive,
}

/// How far a hold has come.
#[derive(Clone, Copy, PartialEq, Eq, Debug)]
pub enum Stage {
    /// The station still looks at the record or changes it.
    Owned,
    /// The station is done with the record, but has not committed; others may build on its draft.
    Retired,
}

/// What a station does.
#[derive(Clone, Copy, PartialEq, Eq, Debug)]
pub enum State {
    /// No attempt.
    Idle,
    /// An attempt that may call.
    Running,
    /// An attempt that waits for a record.
    Waiting,
    /// The attempt was ended for the sake of an older one.
    Wounded,
}

/// Why a call was refused.
#[derive(Clone, Copy, PartialEq, Eq, Debug)]
pub enum Refusal {
    /// The station number is above 15.
    Station,
    /// The station has no attempt and is not wounded.
    Idle,
    /// Begin at a station that is not idle.
    Busy,
    /// The station waits.
    Waiting,
    /// The station is wounded.
    Wounded,
    /// The record number is at or past the count.
    Record,
    /// The station already holds the record, owned or retired.
    Held,
    /// The station has sixteen holds.
    Hand,
    /// The station has no owned hold on the record.
    Unowned,
    /// The owned hold is shared.
    Shared,
    /// The attempt has bonds: how many, and the station of some older holder with a conflicting mode behind one.
    Bound { bonds: u32, station: u32 },
    /// The stamps are used up.
    Spent,
    /// Again at a station that is not wounded.
    Sound,
}

/// The number of a refusal.
impl From<Refusal> for u32 {
    ghost from_gives = { λ why n. n ≡ refusal_number why };

    fn from(why: Refusal) -> u32 {
        match why {
            Refusal::Station => 1,
            Refusal::Idle => 2,
            Refusal::Busy => 3,
            Refusal::Waiting => 4,
            Refusal::Wounded => 5,
            Refusal::Record => 6,
            Refusal::Held => 7,
            Refusal::Hand => 8,
            Refusal::Unowned => 9,
            Refusal::Shared => 10,
            Refusal::Bound { .. } => 11,
            Refusal::Spent => 12,
            Refusal::Sound => 13,
        }
    }
}

/// What standing tells of a station.
#[derive(Clone, Copy, PartialEq, Eq, Debug)]
pub struct Standing {
    pub state: State,
    /// The stamp, unless the station is idle.
    pub stamp: Option<u32>,
    pub bonds: u32,
    /// The record that the station waits for, if it waits.
    pub awaits: Option<u32>,
}

/// What became of a take.
#[derive(Clone, Copy, PartialEq, Eq, Debug)]
pub enum Outcome {
    Granted,
    Waits,
}

/// The eleven calls. Stations and records go by their numbers; `C` is a change of a value.
#[derive(Clone, Copy, PartialEq, Eq, Debug)]
pub enum Call<C> {
    Begin(u32),
    Take(u32, u32, Mode),
    Look(u32, u32),
    Change(u32, u32, C),
    Retire(u32, u32),
    Commit(u32),
    GiveUp(u32),
    Again(u32),
    Standing(u32),
    Plotted(u32),
    Count,
}

/// What a call answers. `V` is a value of a record.
#[derive(Clone, Copy, PartialEq, Eq, Debug)]
pub enum Answer<V> {
    Refused(Refusal),
    /// A stamp, a number of waits granted, of attempts wounded, or of records.
    Number(u32),
    /// What became of a take, and the number of attempts that it wounded.
    Taken(Outcome, u32),
    Value(V),
    /// The commit number.
    Committed(u32),
    Stands(Standing),
}

/// The nine plotting cases follow from the rules.
pub fn cases_hold()
    ensures { CasesHold }
{}

/// The plays that a misreading of the rules would turn go as written.
pub fn misreadings_held_off()
    ensures { MisreadingsHeldOff }
{}

/// The widened set is the least one that has the first members and is closed under "a member holds a record exclusively and a
/// younger station holds it".
pub fn widening_is_least<V>()
    ensures { WideningIsLeast V }
{}

/// The station that a refused commit names is a free choice: there is one to name, and the table left does not depend on it.
pub fn naming_is_free<V, C>()
    ensures { NamingIsFree V C }
{}
