// What retiring buys, counted in rounds: in each round every station that does not wait makes one call.
use engine::Engine;
use rules::{Answer, Call, Mode, State};
use shelves::shelf::Shelf;
use shelves::table::Table;
use values::level::{LevelChange, Levels};

// The hot record, which every station takes first.
const HOT: u32 = 0;

// How many records each station has for itself.
const OWN: u32 = 15;

// The next call of a station's attempt.
#[derive(Clone, Copy)]
enum Step {
    Begin,
    TakeHot,
    ChangeHot,
    RetireHot,
    TakeOwn(u32),
    ChangeOwn(u32),
    Commit,
    Again,
}

// Own record n of station s.
fn own_record(s: u32, n: u32) -> u32 {
    s.saturating_mul(OWN).saturating_add(n).saturating_add(1)
}

// The call of a step, which is data and no code to run, as at `step_after`.
fn call_at(step: Step, s: u32) -> Call<LevelChange> {
    match step {
        Step::Begin => Call::Begin(s),
        Step::TakeHot => Call::Take(s, HOT, Mode::Exclusive),
        Step::ChangeHot => Call::Change(s, HOT, LevelChange::Up(1)),
        Step::RetireHot => Call::Retire(s, HOT),
        Step::TakeOwn(n) => Call::Take(s, own_record(s, n), Mode::Exclusive),
        Step::ChangeOwn(n) => Call::Change(s, own_record(s, n), LevelChange::Up(1)),
        Step::Commit => Call::Commit(s),
        Step::Again => Call::Again(s),
    }
}

// The step after one that was not refused. By `match`: a step is data that a station keeps between its turns, and no code to run.
fn step_after(step: Step, retiring: bool) -> Step {
    match step {
        Step::Begin => Step::TakeHot,
        Step::TakeHot => Step::ChangeHot,
        Step::ChangeHot => {
            if retiring {
                Step::RetireHot
            } else {
                Step::TakeOwn(0)
            }
        }
        Step::RetireHot => Step::TakeOwn(0),
        Step::TakeOwn(n) => Step::ChangeOwn(n),
        Step::ChangeOwn(n) => {
            let next = n.saturating_add(1);
            if next < OWN {
                Step::TakeOwn(next)
            } else {
                Step::Commit
            }
        }
        Step::Commit => Step::Begin,
        Step::Again => Step::TakeHot,
    }
}

// What the station is due to do: the call of this round, or nothing while it waits.
fn due<S: Shelf<Levels>, D: Shelf<Levels>>(
    engine: &Engine<Levels, S, D>,
    s: u32,
    step: Step,
) -> Option<Step> {
    match engine.standing(s).ok()?.state {
        State::Waiting => None,
        State::Wounded => Some(Step::Again),
        State::Idle | State::Running => Some(step),
    }
}

// Makes the station's call of this round, unless it waits, and goes on to the next step where the call was not refused. Answers the
// commit number, if it committed.
fn take_turn<S: Shelf<Levels>, D: Shelf<Levels>>(
    engine: &mut Engine<Levels, S, D>,
    s: u32,
    step: &mut Step,
    retiring: bool,
) -> Option<u32> {
    let call = due(engine, s, *step)?;
    *step = call;
    let answer = engine.answer(call_at(call, s));
    if !matches!(answer, Answer::Refused(_)) {
        *step = step_after(call, retiring);
    }
    match answer {
        Answer::Committed(number) => Some(number),
        _ => None,
    }
}

// The commits of sixteen stations in so many rounds. Each station takes the hot record, changes it, retires it or not, takes and changes
// fifteen records of its own, commits, and begins again.
#[unsafe(no_mangle)]
pub extern "C" fn bench_rounds(show: &mut [u16], rounds: u32, retiring: bool) -> u32 {
    let mut rows = [0u16; 256];
    let show: Table<Levels> = Table { lines: show };
    let drafts: Table<Levels> = Table { lines: &mut rows };
    let mut engine: Engine<Levels, Table<Levels>, Table<Levels>> = Engine::open(show, drafts, 1);
    let mut steps = [Step::Begin; 16];
    let mut commits = 0u32;
    for _ in 0..rounds {
        for (s, step) in (0..16u32).zip(steps.iter_mut()) {
            if take_turn(&mut engine, s, step, retiring).is_some() {
                commits = commits.saturating_add(1);
            }
        }
    }
    commits
}
