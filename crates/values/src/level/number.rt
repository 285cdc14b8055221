// A level of a number, and the number of a level.
ghost use Rattle.std.specs.Prelude.{◌≡◌};
ghost use Rattle.values.specs.Levels.{level};

use super::Level;

impl From<u16> for Level {
    ghost from_gives = { λ n v. v ≡ level n };

    fn from(n: u16) -> Level {
        Level { value: n }
    }
}

impl From<Level> for u16 {
    ghost from_gives = { λ v n. n ≡ v.value };

    fn from(v: Level) -> u16 {
        v.value
    }
}
