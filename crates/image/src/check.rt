// The check of an image, block by block; it answers the first fault.
ghost use Rattle.std.specs.Prelude.{◌≡◌, ◌<◌, true, length, Ok, ◌==◌, slice_index};
ghost use Rattle.values.specs.Packing.{number_at};
ghost use Rattle.image.specs.Faults.{whole_blocks, clear, check_fits, rows_check, block_check, blocks_check, image_check};
ghost use Rattle.image.specs.Sound.{Sound};

use crate::block::{Block, check_of, rows_of};
use crate::fault::Fault;
use values::kind::Kind;

// Whether the length is that of 1 to 64 whole blocks.
pub fn is_whole(length: usize) -> bool
    ensures { result ≡ whole_blocks length }
{
    length % 512 == 0 && (1..=64).contains(&(length / 512))
}

// Checks an image of kind K. An image passes just when it is sound.
pub fn image_check<K: Kind>(image: &[u8]) -> Result<(), Fault>
    ensures answer { result ≡ image_check K.Kind.NUMBER K.Kind.unpacked image.now }
    ensures passes { result ≡ Ok tt → Sound K.Kind.NUMBER K.Kind.unpacked image.now }
    ensures only { Sound K.Kind.NUMBER K.Kind.unpacked image.now → result ≡ Ok tt }
{
    if !is_whole(image.len()) {
        return Err(Fault::Length);
    }
    check_blocks::<K>(image)
}

fn check_blocks<K: Kind>(image: &[u8]) -> Result<(), Fault>
    requires { whole_blocks (length image.now) ≡ true }
    ensures { result ≡ blocks_check K.Kind.NUMBER K.Kind.unpacked image.now }
{
    let (blocks, _) = image.as_chunks();
    for (q, block) in blocks.iter().enumerate() {
        check_block::<K>(block, q as u8)?;
    }
    Ok(())
}

fn check_block<K: Kind>(block: &Block, q: u8) -> Result<(), Fault>
    ensures { result ≡ block_check K.Kind.NUMBER K.Kind.unpacked q block.now }
{
    if u16::from_le_bytes([block[0], block[1]]) != u16::from(q) {
        return Err(Fault::Number { block: q });
    }
    if block[2] != K::NUMBER {
        return Err(Fault::Kind { block: q });
    }
    if !is_clear(block) {
        return Err(Fault::Mark { block: q });
    }
    if !check_fits(block) {
        return Err(Fault::Check { block: q });
    }
    check_rows::<K>(block, q)
}

// Whether the mark and the four bytes after it are 0.
fn is_clear(block: &Block) -> bool
    ensures { result ≡ clear block.now }
{
    block[3..8].iter().all(|byte| *byte == 0)
}

fn check_fits(block: &Block) -> bool
    ensures { result ≡ check_fits block.now }
{
    check_of(block)[..] == block[504..]
}

fn check_rows<K: Kind>(block: &Block, q: u8) -> Result<(), Fault>
    ensures { result ≡ rows_check K.Kind.unpacked q block.now }
{
    let rows = rows_of(block);
    for (k, row) in rows.iter().enumerate() {
        if let Err(byte) = K::unpack(*row) {
            return Err(Fault::Row {
                block: q,
                row: k as u8,
                byte,
            });
        }
    }
    Ok(())
}
