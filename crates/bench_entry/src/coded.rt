// Calls and answers as plain numbers, as a benchmark or a differential test can hand them over.
use rules::{Answer, Call, Mode, Outcome, Refusal, Standing};
use values::kind::Kind;
use values::level::{Level, LevelChange, Levels};
use values::timing::{Timing, TimingChange, Timings};

// A call as C hands it over: which call it is, the station, the record, which mode or change, and the amount.
#[repr(C)]
#[derive(Clone, Copy)]
pub struct CallNumbers {
    pub call: u32,
    pub station: u32,
    pub record: u32,
    pub which: u32,
    pub amount: u32,
}

// An answer as C gets it: 0 or the number of the refusal, up to four numbers, and the station that a refused commit names.
#[repr(C)]
#[derive(Clone, Copy)]
pub struct AnswerNumbers {
    pub refusal: u32,
    pub numbers: [u32; 4],
    pub station: u32,
}

impl From<[u32; 4]> for AnswerNumbers {
    fn from(numbers: [u32; 4]) -> AnswerNumbers {
        AnswerNumbers {
            refusal: 0,
            numbers,
            station: 0,
        }
    }
}

// A kind whose changes and values have plain numbers, since C has no enum of ours.
pub trait Coded: Kind {
    fn change_of(which: u32, amount: u16) -> Self::Change;

    fn numbers_of(v: Self::Value) -> [u32; 4];
}

impl Coded for Levels {
    fn change_of(which: u32, amount: u16) -> LevelChange {
        match which {
            0 => LevelChange::Set(amount),
            1 => LevelChange::Up(amount),
            _ => LevelChange::Down(amount),
        }
    }

    fn numbers_of(v: Level) -> [u32; 4] {
        [u32::from(v.value), 0, 0, 0]
    }
}

impl Coded for Timings {
    fn change_of(which: u32, amount: u16) -> TimingChange {
        match which {
            0 => TimingChange::FadeUp(amount),
            1 => TimingChange::FadeDown(amount),
            2 => TimingChange::Wait(amount),
            _ => TimingChange::Link((amount & 0xff) as u8),
        }
    }

    fn numbers_of(v: Timing) -> [u32; 4] {
        let n = <Timings as Kind>::to_numbers(v);
        [
            u32::from(n.up),
            u32::from(n.down),
            u32::from(n.wait),
            u32::from(n.link),
        ]
    }
}

// The call that the numbers stand for; a number past 9 is count. By numbers, since that is what C hands over.
pub(crate) fn call_of<K: Coded>(n: &CallNumbers) -> Call<K::Change> {
    let CallNumbers {
        call,
        station,
        record,
        which,
        amount,
    } = *n;
    let mode = if which == 0 {
        Mode::Shared
    } else {
        Mode::Exclusive
    };
    match call {
        0 => Call::Begin(station),
        1 => Call::Take(station, record, mode),
        2 => Call::Look(station, record),
        3 => Call::Change(
            station,
            record,
            K::change_of(which, (amount & 0xffff) as u16),
        ),
        4 => Call::Retire(station, record),
        5 => Call::Commit(station),
        6 => Call::GiveUp(station),
        7 => Call::Again(station),
        8 => Call::Standing(station),
        9 => Call::Plotted(record),
        _ => Call::Count,
    }
}

impl From<Refusal> for AnswerNumbers {
    fn from(why: Refusal) -> AnswerNumbers {
        let (bonds, station) = match why {
            Refusal::Bound { bonds, station } => (bonds, station),
            _ => (0, 0),
        };
        AnswerNumbers {
            refusal: u32::from(why),
            numbers: [bonds, 0, 0, 0],
            station,
        }
    }
}

// The state by its place in `State` (0 idle, 1 running, 2 waiting, 3 wounded), the stamp (0 where there is none), the bonds, and the
// record that is waited for plus 1 (0 where there is none).
impl From<Standing> for AnswerNumbers {
    fn from(s: Standing) -> AnswerNumbers {
        let stamp = s.stamp.unwrap_or(0);
        let awaits = s.awaits.map_or(0, |at| at.saturating_add(1));
        AnswerNumbers::from([s.state as u32, stamp, s.bonds, awaits])
    }
}

// The numbers of an answer.
pub(crate) fn numbers_of_answer<K: Coded>(answer: Answer<K::Value>) -> AnswerNumbers {
    match answer {
        Answer::Refused(why) => AnswerNumbers::from(why),
        Answer::Number(n) | Answer::Committed(n) => AnswerNumbers::from([n, 0, 0, 0]),
        Answer::Taken(outcome, wounded) => {
            let granted = u32::from(outcome == Outcome::Granted);
            AnswerNumbers::from([granted, wounded, 0, 0])
        }
        Answer::Value(v) => AnswerNumbers::from(K::numbers_of(v)),
        Answer::Stands(s) => AnswerNumbers::from(s),
    }
}
