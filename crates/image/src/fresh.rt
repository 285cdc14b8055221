// New images: every row at home.
ghost use Rattle.std.specs.Prelude.{◌≡◌, ℕ, ◌<◌, true, false, [], ◌∷◌, length, slice_index};
ghost use Rattle.image.specs.Blocks.{part, row_of};
ghost use Rattle.image.specs.Faults.{whole_blocks, length_check};
ghost use Rattle.image.specs.Sound.{BlockOf, Sound, Filled};

use crate::block::{Block, Row, close, put_row};
use crate::check::is_whole;
use crate::fault::Fault;
use values::kind::Kind;

// Makes the memory a new image of kind K with every row at home, or leaves it where it is not 1 to 64 whole blocks.
pub fn new_image<K: Kind>(image: &mut [u8]) -> Result<(), Fault>
    ensures answer { result ≡ length_check (length image.old) }
    ensures refused { whole_blocks (length image.old) ≡ false → image.new ≡ image.old }
    ensures made { whole_blocks (length image.old) ≡ true → Filled K.Kind.NUMBER (K.Kind.packed K.Kind.home) image.new }
    ensures sound { whole_blocks (length image.old) ≡ true → Sound K.Kind.NUMBER K.Kind.unpacked image.new }
{
    if !is_whole(image.len()) {
        return Err(Fault::Length);
    }
    new_blocks(image, K::NUMBER, &K::pack(K::home()));
    Ok(())
}

fn new_blocks(image: &mut [u8], kind: u8, row: &Row)
    requires { whole_blocks (length image.old) ≡ true }
    ensures { Filled kind row.now image.new }
{
    let count = (image.len() / 512) as u8;
    // Not by `as_chunks_mut` or `chunks_exact_mut`: the library does not say what these leave of the image.
    for q in 0..count {
        let (_, rest) = image.split_at_mut(512 * q as usize);
        if let Some(block) = rest.first_chunk_mut() {
            new_block(block, q, kind, row);
        }
    }
}

fn new_block(block: &mut Block, q: u8, kind: u8, row: &Row)
    ensures { BlockOf kind (λ bytes. bytes ≡ row.now) q block.new }
{
    write_header(block, q, kind);
    fill_rows(block, row);
    close(block);
}

fn write_header(block: &mut Block, q: u8, kind: u8)
    ensures { part block.new 0 8 ≡ q ∷ 0 ∷ kind ∷ 0 ∷ 0 ∷ 0 ∷ 0 ∷ 0 ∷ [] }
{
    block[..8].copy_from_slice(&[q, 0, kind, 0, 0, 0, 0, 0]);
}

fn fill_rows(block: &mut Block, row: &Row)
    ensures header { (i : ℕ) → i < 8 → slice_index block.new i ≡ slice_index block.old i }
    ensures rows { (k : ℕ) → k < 31 → row_of block.new k ≡ row.now }
{
    // Not by `as_chunks_mut`: the library does not say what it leaves of the block.
    for k in 0..31usize {
        put_row(block, k, row);
    }
}
