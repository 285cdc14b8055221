// What the benchmark calls: the rows of an image of levels, written and read one by one through the block shelf. And what a benchmark
// and a differential test of the engine can call: lists of calls played on it, and what retiring buys, in rounds.

#![tactic(auto)]

mod coded;
mod contended;
mod rounds;

ghost use Rattle.std.specs.Prelude.{◌≡◌, min, length};
ghost use Rattle.image.specs.Images.{row_count};
ghost use Rattle.bench_entry.specs.Rows.{levels_of, SoundLevels, laid_over, as_levels, as_numbers, image_after};

use image::shelf::BlockShelf;
use shelves::shelf::Shelf;
use values::level::{Level, Levels};

// Writes the numbers as levels to row 0 and on, and answers how many were accepted.
#[unsafe(no_mangle)]
pub extern "C" fn bench_write_levels(image: &mut [u8], numbers: &[u16]) -> usize
    ensures answer { result ≡ min (length numbers.now) (row_count (length image.old)) }
    ensures rows { levels_of image.new ≡ laid_over (levels_of image.old) (as_levels numbers.now) }
    ensures sound { SoundLevels image.old → SoundLevels image.new }
    ensures bytes { image.new ≡ image_after image.old 0 numbers.now }
{
    let mut shelf = BlockShelf { image };
    let mut accepted = 0;
    for (n, number) in numbers.iter().enumerate() {
        if Shelf::<Levels>::write(&mut shelf, n, Level { value: *number }).is_ok() {
            accepted += 1;
        }
    }
    accepted
}

// Reads row 0 and on as numbers, and answers how many were read. The image stays as it is.
#[unsafe(no_mangle)]
pub extern "C" fn bench_read_levels(image: &mut [u8], numbers: &mut [u16]) -> usize
    ensures answer { result ≡ min (length numbers.old) (row_count (length image.old)) }
    ensures numbers { numbers.new ≡ laid_over numbers.old (as_numbers (levels_of image.old)) }
    ensures image { image.new ≡ image.old }
{
    let shelf = BlockShelf { image };
    let mut got = 0;
    for (n, number) in numbers.iter_mut().enumerate() {
        if let Some(level) = Shelf::<Levels>::read(&shelf, n) {
            *number = level.value;
            got += 1;
        }
    }
    got
}
