// What the console's host program, which is written in C, asks of an image: the check by a kind number.

#![tactic(auto)]

ghost use Rattle.std.specs.Prelude.{◌≡◌, Ok};
ghost use Rattle.plot_image.specs.Host.{host_check, host_number, SoundOf};

use image::check::{image_check, is_whole};
use image::fault::Fault;
use values::level::Levels;
use values::name::KindName;
use values::timing::Timings;

// Checks an image whose kind is told by its number. A number that no kind has is a fault of block 0, after a wrong
// length.
pub fn check_as(image: &[u8], kind: u32) -> Result<(), Fault>
    ensures answer { result ≡ host_check kind image.now }
    ensures passes { result ≡ Ok tt → SoundOf kind image.now }
    ensures only { SoundOf kind image.now → result ≡ Ok tt }
{
    match KindName::try_from(kind) {
        Ok(KindName::Level) => image_check::<Levels>(image),
        Ok(KindName::Timing) => image_check::<Timings>(image),
        Err(_) if is_whole(image.len()) => Err(Fault::Kind { block: 0 }),
        Err(_) => Err(Fault::Length),
    }
}

// The fault as the one number that the host, in C, gets: refusal + 256 x block + 65,536 x row, with 0 where it names none.
fn number_of(found: Result<(), Fault>) -> u32
    ensures { result ≡ host_number found }
{
    match found {
        Ok(()) => 0,
        Err(fault) => {
            let block = u32::from(fault.block().unwrap_or(0));
            let row = u32::from(fault.row().unwrap_or(0));
            u32::from(fault) + 256 * block + 65_536 * row
        }
    }
}

// 0, or the number of the first fault.
pub fn plot_image_check(bytes: &[u8], kind: u32) -> u32
    ensures answer { result ≡ host_number (host_check kind bytes.now) }
    ensures passes { result ≡ 0 → SoundOf kind bytes.now }
    ensures only { SoundOf kind bytes.now → result ≡ 0 }
{
    number_of(check_as(bytes, kind))
}
