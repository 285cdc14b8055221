// The block shelf: the rows of an image in the host's memory.
ghost use Rattle.std.specs.Prelude.{◌≡◌, [], ◌∷◌, slice_set};
ghost use Rattle.shelves.specs.Writing.{write_answer};
ghost use Rattle.image.specs.Images.{image_rows, image_written};
ghost use Rattle.image.specs.Sound.{Sound};

use crate::rows::{get, put, rows_in};
use shelves::shelf::{PastCount, Shelf};
use values::kind::Kind;

// 31 rows for each whole block, at most 1,984. The same memory serves every kind; a row that does not unpack reads as
// home.
#[derive(Drop)]
pub struct BlockShelf<'a> {
    pub image: &'a mut [u8],
}

impl<'a, K: Kind> Shelf<K> for BlockShelf<'a> {
    ghost rows = { λ s. image_rows K.Kind.home K.Kind.unpacked s.image.now };

    ghost memory = { λ s. s.image.ghost_name ∷ [] };

    ghost sound = { λ s. Sound K.Kind.NUMBER K.Kind.unpacked s.image.now };

    fn count(&self) -> usize {
        rows_in(self.image.len())
    }

    fn read(&self, n: usize) -> Option<K::Value> {
        if n >= rows_in(self.image.len()) {
            return None;
        }
        Some(K::unpack(*get(self.image, n)).unwrap_or_else(|_| K::home()))
    }

    // The last clause is the block shelf's own: which bytes the image then has.
    fn write(&mut self, n: usize, v: K::Value) -> Result<(), PastCount>
        ensures answer { result ≡ write_answer (image_rows K.Kind.home K.Kind.unpacked self.old.image.now) n }
        ensures after { image_rows K.Kind.home K.Kind.unpacked self.new.image.now ≡ slice_set (image_rows K.Kind.home K.Kind.unpacked self.old.image.now) n v }
        ensures memory { self.new.image.ghost_name ∷ [] ≡ self.old.image.ghost_name ∷ [] }
        ensures sound { Sound K.Kind.NUMBER K.Kind.unpacked self.old.image.now → Sound K.Kind.NUMBER K.Kind.unpacked self.new.image.now }
        ensures bytes { self.new.image.now ≡ image_written self.old.image.now n (K.Kind.packed v) }
    {
        if n >= rows_in(self.image.len()) {
            return Err(PastCount);
        }
        put(self.image, n, &K::pack(v));
        Ok(())
    }
}
