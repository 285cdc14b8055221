// What every shelf shows. Code above is generic over this trait and proved once for every shelf.
ghost use Rattle.std.specs.Prelude.{◌≡◌, ℕ, List, Some, codes, length, slice_set};
ghost use Rattle.std.specs.List.{slice_get};
ghost use Rattle.shelves.specs.Writing.{write_answer};

use std::error::Error;
use std::fmt;
use values::kind::Kind;

// The refusal of a row number at or past the count.
#[derive(Clone, Copy, PartialEq, Eq, Debug)]
pub struct PastCount;

impl fmt::Display for PastCount {
    ghost output = { λ _. Some (codes "there is no such row") };

    fn fmt<W: fmt::Write>(&self, f: &mut fmt::Formatter<W>) -> fmt::Result {
        write!(f, "there is no such row")
    }
}

impl Error for PastCount {}

// A shelf: a list of values of kind K. Its length, the count, never changes. Rows count from 0.
pub trait Shelf<K: Kind> {
    // The values, row 0 first.
    ghost rows: { Self → List K.Value };

    // Which lent memory the rows lie in, so that the lender knows what it gets back.
    ghost memory: { Self → List ℕ };

    // What holds of that memory beyond its rows, as of an image that it is sound; a write keeps it.
    ghost sound: { Self → Type 0 };

    fn count(&self) -> usize
        ensures { result ≡ length (rows self.now) };

    // The value at row n, or None at or past the count.
    fn read(&self, n: usize) -> Option<K::Value>
        ensures { result ≡ slice_get (rows self.now) n };

    // Puts the value at row n and leaves every other row. Past the end `slice_set` leaves the list.
    fn write(&mut self, n: usize, v: K::Value) -> Result<(), PastCount>
        ensures answer { result ≡ write_answer (rows self.old) n }
        ensures after { rows self.new ≡ slice_set (rows self.old) n v }
        ensures memory { memory self.new ≡ memory self.old }
        ensures sound { sound self.old → sound self.new };
}
