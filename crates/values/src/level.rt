// A level: how bright a dimmer is, a number 0 to 65,535.
ghost use Rattle.std.specs.Prelude.{◌<◌};

// The ghost field says in the logic, where numbers have no width, what the type says in the code.
#[derive(Clone, Copy, PartialEq, Eq, Debug)]
pub struct Level {
    pub value: u16,
    ghost ok: { value < 65536 },
}

// Up stops at 65,535 and down at 0.
#[derive(Clone, Copy, PartialEq, Eq, Debug)]
pub enum LevelChange {
    Set(u16),
    Up(u16),
    Down(u16),
}

mod kind;
mod number;
mod text;

pub use kind::Levels;
