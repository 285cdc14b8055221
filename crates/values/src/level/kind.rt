// Levels as a kind: kind 1, packed as two bytes and 14 zeros.
ghost use Rattle.std.specs.Prelude.{◌≡◌, ◌<◌};
ghost use Rattle.values.specs.Levels.{level, level_applied, level_packed, level_unpacked, level_reading};
ghost use Rattle.values.specs.Padded.{size, back, whole, first};
ghost use Rattle.values.specs.LevelKindLemmas.{parts};
ghost use Rattle.std.proofs.Common.{rules};
ghost use Rattle.values.specs.Equality.{same_level};

use super::{Level, LevelChange};
use crate::kind::Kind;
use crate::packing::{first_nonzero, number_at};

// The kind of levels.
#[derive(Clone, Copy)]
pub struct Levels;

impl Kind for Levels {
    type Value = Level;

    type Change = LevelChange;

    type Numbers = u16;

    const NUMBER: u8 = 1;

    ghost NUMBER = { 1 };

    ghost home = { level 0 };

    ghost applied = { level_applied };

    ghost packed = { level_packed };

    ghost unpacked = { level_unpacked };

    ghost numbers = { λ v. v.value };

    ghost reading = { level_reading };

    ghost packed_size = { size parts };

    ghost unpacks_packed = { back parts };

    ghost packs_unpacked = { whole parts };

    ghost first_offending = { first parts };

    ghost reads_numbers = { λ v. let h : v.value < 65536 = v.ok in same_level _ _ (Prim.search rules) };

    ghost other_numbers = { Prim.search rules };

    fn home() -> Level {
        Level::from(0)
    }

    fn apply(v: Level, c: LevelChange) -> Level {
        match c {
            LevelChange::Set(n) => Level::from(n),
            LevelChange::Up(n) => Level::from(v.value.saturating_add(n)),
            LevelChange::Down(n) => Level::from(v.value.saturating_sub(n)),
        }
    }

    fn pack(v: Level) -> [u8; 16] {
        let [low, high] = v.value.to_le_bytes();
        [low, high, 0, 0, 0, 0, 0, 0, 0, 0, 0, 0, 0, 0, 0, 0]
    }

    fn unpack(b: [u8; 16]) -> Result<Level, u8> {
        match first_nonzero(b, 2) {
            Some(k) => Err(k),
            None => Ok(Level::from(number_at(b, 0))),
        }
    }

    fn to_numbers(v: Level) -> u16 {
        u16::from(v)
    }

    fn of_numbers(n: u16) -> Level {
        Level::from(n)
    }
}
