// The table shelf: a run of rows in the host's memory, each the plain numbers of a value.
ghost use Rattle.std.specs.Prelude.{◌≡◌, [], ◌∷◌, map, slice_set};
ghost use Rattle.std.specs.List.{slice_get};
ghost use Rattle.shelves.specs.Writing.{write_answer};

use crate::shelf::{PastCount, Shelf};
use values::kind::Kind;

// A row whose numbers no value has reads as home.
#[derive(Drop)]
pub struct Table<'a, K: Kind> {
    pub lines: &'a mut [K::Numbers],
}

impl<'a, K: Kind> Shelf<K> for Table<'a, K> {
    ghost rows = { λ s. map K.Kind.reading s.lines.now };

    ghost memory = { λ s. s.lines.ghost_name ∷ [] };

    ghost sound = { λ _. Unit {0} };

    fn count(&self) -> usize {
        self.lines.len()
    }

    fn read(&self, n: usize) -> Option<K::Value> {
        self.lines.get(n).map(|line| K::of_numbers(*line))
    }

    // The last clause is the table's own: what the host's memory then holds.
    // By index: after a write through `get_mut` the proof knows nothing of the slice.
    fn write(&mut self, n: usize, v: K::Value) -> Result<(), PastCount>
        ensures answer { result ≡ write_answer (map K.Kind.reading self.old.lines.now) n }
        ensures after { map K.Kind.reading self.new.lines.now ≡ slice_set (map K.Kind.reading self.old.lines.now) n v }
        ensures memory { self.new.lines.ghost_name ∷ [] ≡ self.old.lines.ghost_name ∷ [] }
        ensures sound { Unit {0} → Unit {0} }
        ensures lines { self.new.lines.now ≡ slice_set self.old.lines.now n (K.Kind.numbers v) }
    {
        if n < self.lines.len() {
            self.lines[n] = K::to_numbers(v);
            Ok(())
        } else {
            Err(PastCount)
        }
    }
}
