// The numbering layer, for libraries that count from one: a shelf over any shelf.
ghost use Rattle.std.specs.Prelude.{◌≡◌, ◌+◌, drop, slice_set};
ghost use Rattle.shelves.specs.Writing.{write_answer};

use crate::shelf::{PastCount, Shelf};
use values::kind::Kind;

// Its row n is row n + 1 below, and its count one less, 0 over an empty shelf.
#[derive(Drop)]
pub struct Numbered<S> {
    pub below: S,
}

impl<K: Kind, S: Shelf<K>> Shelf<K> for Numbered<S> {
    ghost rows = { λ s. drop 1 (S.Shelf.rows s.below) };

    ghost memory = { λ s. S.Shelf.memory s.below };

    ghost sound = { λ s. S.Shelf.sound s.below };

    fn count(&self) -> usize {
        self.below.count().saturating_sub(1)
    }

    // Not `n.checked_add(1)?`, here and in `write`: unless the shelf is counted, the proof lacks that no row lies past usize.
    fn read(&self, n: usize) -> Option<K::Value> {
        if n < self.count() {
            self.below.read(n + 1)
        } else {
            None
        }
    }

    // The last clause is the layer's own: below, row n + 1 is written, so row 0 never changes.
    fn write(&mut self, n: usize, v: K::Value) -> Result<(), PastCount>
        ensures answer { result ≡ write_answer (drop 1 (S.Shelf.rows self.old.below)) n }
        ensures after { drop 1 (S.Shelf.rows self.new.below) ≡ slice_set (drop 1 (S.Shelf.rows self.old.below)) n v }
        ensures memory { S.Shelf.memory self.new.below ≡ S.Shelf.memory self.old.below }
        ensures sound { S.Shelf.sound self.old.below → S.Shelf.sound self.new.below }
        ensures below { S.Shelf.rows self.new.below ≡ slice_set (S.Shelf.rows self.old.below) (n + 1) v }
    {
        if n < self.count() {
            self.below.write(n + 1, v)
        } else {
            Err(PastCount)
        }
    }
}
