// A block of 512 bytes: its rows, and its check, which is eight bytes, each the exclusive or of 63 others.
ghost use Rattle.std.specs.Prelude.{◌≡◌, ◌<◌, length, bit_xor};
ghost use Rattle.std.specs.Simd.Lanes.{zip2};
ghost use Rattle.image.specs.Blocks.{checks, closed, first_rows, row_xors, with_row};

use std::simd::prelude::*;

pub(crate) type Block = [u8; 512];

pub(crate) type Row = [u8; 16];

// The 31 rows.
pub(crate) fn rows_of(block: &Block) -> &[Row]
    ensures many { length result.now ≡ 31 }
    ensures rows { result.now ≡ first_rows block.now 31 }
{
    block[8..504].as_chunks().0
}

// In place of `copy_from_slice`, which tests at run time whether its two sides overlap. The place is always there.
pub(crate) fn put_row(block: &mut Block, k: usize, row: &Row)
    requires { k < 31 }
    ensures { block.new ≡ with_row block.old k row.now }
{
    let (_, rest) = block.split_at_mut(8 + 16 * k);
    if let Some(place) = rest.first_chunk_mut() {
        *place = *row;
    }
}

// All 16 bytes of a row at once.
fn mix(mixed: u8x16, row: &Row) -> u8x16
    ensures { result ≡ zip2 bit_xor mixed row.now }
{
    mixed ^ u8x16::from_array(*row)
}

fn rows_mixed(block: &Block) -> Row
    ensures { result ≡ row_xors block.now 31 }
{
    rows_of(block).iter().fold(u8x16::splat(0), mix).to_array()
}

// The header and the two halves of the rows, mixed.
pub(crate) fn check_of(block: &Block) -> [u8; 8]
    ensures { result ≡ checks block.now }
{
    let rows = rows_mixed(block);
    let header = u8x8::from_slice(block);
    let low = u8x8::from_slice(&rows);
    let high = u8x8::from_slice(&rows[8..]);
    (header ^ low ^ high).to_array()
}

// The mark becomes 0 and the check fits.
pub(crate) fn close(block: &mut Block)
    ensures { block.new ≡ closed block.old }
{
    block[3] = 0;
    let check = check_of(block);
    block[504..].copy_from_slice(&check);
}
