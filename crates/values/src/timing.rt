// A cue's timing: how long it fades up and down, how long it waits, and what starts it.
ghost use Rattle.std.specs.Prelude.{◌≤◌};

// Three times in tenths of a second, each at most an hour, and a link.
#[derive(Clone, Copy, PartialEq, Eq, Debug)]
pub struct Timing {
    pub up: u16,
    pub down: u16,
    pub wait: u16,
    pub link: Link,
    ghost ok: { (up ≤ 36000) × (down ≤ 36000) × (wait ≤ 36000) },
}

// Sets one of the four. A time above an hour becomes an hour; a link above 2 leaves the timing as it is, so that the change takes
// any number and not a Link.
#[derive(Clone, Copy, PartialEq, Eq, Debug)]
pub enum TimingChange {
    FadeUp(u16),
    FadeDown(u16),
    Wait(u16),
    Link(u8),
}

// An hour, in tenths of a second.
const LONGEST: u16 = 36_000;

mod kind;
mod link;
mod numbers;
mod text;

pub use kind::Timings;
pub use link::{Link, UnknownLink};
pub use numbers::{NotATiming, TimingNumbers};
