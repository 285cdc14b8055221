// The program: makes a show image, writes records into it, damages it and mends it, and says in words what it did.

#![tactic(auto)]

mod asked;
mod saving;
mod task;

use asked::read_words;
use std::env;
use std::process::ExitCode;
use task::run_task;
use values::kind::Kind;
use values::level::{Level, LevelChange, Levels};
use values::name::KindName;
use values::timing::{Timing, TimingChange, Timings};

// A level that is set, one that stops at the highest, and one that stops at 0.
fn some_levels() -> [Level; 3] {
    let high = Levels::apply(Levels::home(), LevelChange::Set(60_000));
    [
        Levels::apply(Levels::home(), LevelChange::Set(25_700)),
        Levels::apply(high, LevelChange::Up(10_000)),
        Levels::apply(high, LevelChange::Down(65_535)),
    ]
}

// A fade up of five seconds, a fade down that stops at an hour, and a cue that starts with the previous one.
fn some_timings() -> [Timing; 3] {
    let home = Timings::home();
    [
        Timings::apply(home, TimingChange::FadeUp(50)),
        Timings::apply(home, TimingChange::FadeDown(40_000)),
        Timings::apply(home, TimingChange::Link(2)),
    ]
}

fn run(rt: &HostRuntime) -> anyhow::Result<()> {
    let asked = read_words(env::args(rt)?)?;
    match asked.kind {
        KindName::Level => run_task::<Levels>(rt, &asked, some_levels()),
        KindName::Timing => run_task::<Timings>(rt, &asked, some_timings()),
    }
}

fn main(rt: HostRuntime) -> anyhow::Result<ExitCode> {
    match run(&rt) {
        Ok(()) => Ok(ExitCode::SUCCESS),
        Err(e) => {
            eprintln!(rt; "plot: {e}")?;
            Ok(ExitCode::FAILURE)
        }
    }
}
