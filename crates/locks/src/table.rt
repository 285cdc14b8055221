// The lock table: sixteen stations, the next stamp and the commits so far.
ghost use Rattle.std.specs.Prelude.{◌≡◌, ℕ, ◌+◌, ◌<◌, ◌≤◌, length, slice_index_or};
ghost use Rattle.locks.specs.View.{no_station, HasRoom, attempts};

use crate::station::Station;

// The largest stamp.
pub(crate) const LAST_STAMP: u32 = 4000000000;

// The ghost fields say what every table keeps: a wait has a place kept for its hold; each commit and each attempt had a stamp of its
// own; and, as the types say in the code, there are sixteen stations, and a stamp has its width.
#[derive(Drop)]
pub struct LockTable {
    pub stations: [Station; 16],
    pub next: u32,
    pub commits: u32,
    ghost full: { length stations ≡ 16 },
    ghost room: { (i : ℕ) → i < 16 → HasRoom (slice_index_or stations i no_station) },
    ghost stamped: { commits + attempts stations ≤ next },
    ghost width: { next < 4294967296 },
}
