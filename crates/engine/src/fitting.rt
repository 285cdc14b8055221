// Whether two shelves fit an engine, and opening it.
ghost use Rattle.std.specs.Prelude.{◌≡◌, ◌+◌, ◌*◌, ◌<◌, Some, codes};
ghost use Rattle.engine.specs.View.{fit_number, fit_answer, opened_on, shown, drafted, view, SameTable};

use crate::Engine;
use locks::table::LockTable;
use shelves::shelf::Shelf;
use std::error::Error;
use std::fmt;
use std::marker::PhantomData;
use values::kind::Kind;

// The refusal of two shelves that do not fit an engine.
#[derive(Clone, Copy, PartialEq, Eq, Debug)]
pub struct Unfit;

impl From<Unfit> for u32 {
    ghost from_gives = { λ _ n. n ≡ 20 };

    fn from(_why: Unfit) -> u32 {
        20
    }
}

impl fmt::Display for Unfit {
    ghost output = { λ _. Some (codes "the shelves do not fit") };

    fn fmt<W: fmt::Write>(&self, f: &mut fmt::Formatter<W>) -> fmt::Result {
        write!(f, "the shelves do not fit")
    }
}

impl Error for Unfit {}

// Whether a show and drafts of these counts fit.
pub fn check_fit(show: usize, drafts: usize) -> Result<(), Unfit>
    ensures { result ≡ fit_answer show drafts }
{
    if (1..=1984).contains(&show) && drafts == 256 {
        Ok(())
    } else {
        Err(Unfit)
    }
}

// The same as a number, which is what stations are told: 0, or 20 where a count is wrong.
pub fn fit(show: usize, drafts: usize) -> u32
    ensures { result ≡ fit_number show drafts }
{
    match check_fit(show, drafts) {
        Ok(()) => 0,
        Err(why) => u32::from(why),
    }
}

// The row of the drafts shelf for place k of station s.
pub(crate) fn draft_row(s: usize, k: usize) -> usize
    requires { (s < 16) × (k < 16) }
    ensures { result ≡ 16 * s + k }
{
    16 * s + k
}

impl<K: Kind, S: Shelf<K>, D: Shelf<K>> Engine<K, S, D> {
    // A new engine: all stations idle. Shelves that do not fit have no records.
    pub fn open(show: S, drafts: D, first: u32) -> Engine<K, S, D>
        ensures new { view K.Kind S.Shelf D.Shelf result ≡ opened_on K.Kind S.Shelf D.Shelf show drafts first }
        ensures same_table { SameTable (view K.Kind S.Shelf D.Shelf result) (opened_on K.Kind S.Shelf D.Shelf show drafts first) }
        ensures show { result.show ≡ show }
        ensures drafts { result.drafts ≡ drafts }
    {
        Engine {
            show,
            drafts,
            locks: LockTable::new(first),
            kind: PhantomData,
        }
    }

    // How many records there are.
    pub(crate) fn records(&self) -> u32
        ensures { result ≡ (view K.Kind S.Shelf D.Shelf self.now).records }
    {
        let count = self.show.count();
        if check_fit(count, self.drafts.count()).is_ok() {
            count as u32
        } else {
            0
        }
    }

    // The plotted value of a record, home past the last.
    pub(crate) fn value_at(&self, at: u32) -> K::Value
        ensures { result ≡ shown K.Kind S.Shelf self.now at }
    {
        self.show.read(at as usize).unwrap_or(K::home())
    }

    // The draft at a place of a station, home where there is none.
    pub(crate) fn draft_at(&self, s: usize, k: usize) -> K::Value
        requires { (s < 16) × (k < 16) }
        ensures { result ≡ drafted K.Kind D.Shelf self.now s k }
    {
        self.drafts.read(draft_row(s, k)).unwrap_or(K::home())
    }
}
