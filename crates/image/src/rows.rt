// Rows by their numbers in the whole image: row n is row n % 31 of block n / 31.
ghost use Rattle.std.specs.Prelude.{◌≡◌, ◌<◌, length};
ghost use Rattle.image.specs.Images.{row_count, row_bytes, row_written};

use crate::block::{Row, rows_of};
use crate::open_block::write_row;

// How many rows an image of this length has.
pub(crate) fn rows_in(length: usize) -> usize
    ensures { result ≡ row_count length }
{
    (length / 512).min(64) * 31
}

pub(crate) fn get(image: &[u8], n: usize) -> &Row
    requires { n < row_count (length image.now) }
    ensures { result.now ≡ row_bytes image.now n }
{
    let (blocks, _) = image.as_chunks();
    &rows_of(&blocks[n / 31])[n % 31]
}

// The block is cut out at its whole length, so that no length is tested at run time. It is always there.
pub(crate) fn put(image: &mut [u8], n: usize, row: &Row)
    requires { n < row_count (length image.old) }
    ensures { image.new ≡ row_written image.old n row.now }
{
    let (_, rest) = image.split_at_mut(512 * (n / 31));
    let (part, _) = rest.split_at_mut(512);
    if let Some(block) = part.as_mut_array() {
        write_row(block, n % 31, row);
    }
}
