// Cue timings as a kind: kind 2, packed as three 2-byte times, the link byte and 9 zeros.
ghost use Rattle.std.specs.Prelude.{◌≡◌, ◌+◌, ◌<◌, slice_index};
ghost use Rattle.values.specs.Packing.{number_at, value_unless};
ghost use Rattle.values.specs.Links.{link_of};
ghost use Rattle.values.specs.Timings.{timing, timing_applied, timing_packed, timing_unpacked, time_offence, link_offence, timing_numbers, timing_reading};
ghost use Rattle.values.specs.Padded.{size, back, whole, first};
ghost use Rattle.values.specs.TimingKindLemmas.{parts};
ghost use Rattle.std.proofs.Common.{rules};
ghost use Rattle.values.specs.Equality.{same_timing};

use super::{LONGEST, Link, Timing, TimingChange, TimingNumbers};
use crate::kind::Kind;
use crate::packing::{first_nonzero, number_at};

// The kind of cue timings.
#[derive(Clone, Copy)]
pub struct Timings;

// The time whose two bytes stand at `k`, or `k` where it is above an hour.
fn time_at(b: [u8; 16], k: u8) -> Result<u16, u8>
    requires { k + 1 < 16 }
    ensures { result ≡ value_unless (time_offence b k) (number_at b k) }
{
    let time = number_at(b, usize::from(k));
    if time <= LONGEST { Ok(time) } else { Err(k) }
}

// The link, or its place where its byte is no link's number.
fn link_at(b: [u8; 16]) -> Result<Link, u8>
    ensures { result ≡ value_unless (link_offence b) (link_of (slice_index b 6)) }
{
    Link::try_from(b[6]).map_err(|_| 6)
}

impl Kind for Timings {
    type Value = Timing;

    type Change = TimingChange;

    type Numbers = TimingNumbers;

    const NUMBER: u8 = 2;

    ghost NUMBER = { 2 };

    ghost home = { timing 0 0 0 (link_of 0) };

    ghost applied = { timing_applied };

    ghost packed = { timing_packed };

    ghost unpacked = { timing_unpacked };

    ghost numbers = { timing_numbers };

    ghost reading = { timing_reading };

    ghost packed_size = { size parts };

    ghost unpacks_packed = { back parts };

    ghost packs_unpacked = { whole parts };

    ghost first_offending = { first parts };

    ghost reads_numbers = { λ v. same_timing _ _ (Prim.search rules) (Prim.search rules) (Prim.search rules) (Prim.search rules) };

    ghost other_numbers = { Prim.search rules };

    fn home() -> Timing {
        Timing {
            up: 0,
            down: 0,
            wait: 0,
            link: Link::ByHand,
        }
    }

    fn apply(mut v: Timing, c: TimingChange) -> Timing {
        match c {
            TimingChange::FadeUp(n) => v.up = n.min(LONGEST),
            TimingChange::FadeDown(n) => v.down = n.min(LONGEST),
            TimingChange::Wait(n) => v.wait = n.min(LONGEST),
            TimingChange::Link(n) => v.link = Link::try_from(n).unwrap_or(v.link),
        }
        v
    }

    fn pack(v: Timing) -> [u8; 16] {
        let [up_low, up_high] = v.up.to_le_bytes();
        let [down_low, down_high] = v.down.to_le_bytes();
        let [wait_low, wait_high] = v.wait.to_le_bytes();
        [
            up_low,
            up_high,
            down_low,
            down_high,
            wait_low,
            wait_high,
            u8::from(v.link),
            0,
            0,
            0,
            0,
            0,
            0,
            0,
            0,
            0,
        ]
    }

    fn unpack(b: [u8; 16]) -> Result<Timing, u8> {
        let up = time_at(b, 0)?;
        let down = time_at(b, 2)?;
        let wait = time_at(b, 4)?;
        let link = link_at(b)?;
        match first_nonzero(b, 7) {
            Some(k) => Err(k),
            None => Ok(Timing {
                up,
                down,
                wait,
                link,
            }),
        }
    }

    fn to_numbers(v: Timing) -> TimingNumbers {
        TimingNumbers::from(v)
    }

    fn of_numbers(n: TimingNumbers) -> Timing {
        Timing::try_from(n).unwrap_or(Self::home())
    }
}
