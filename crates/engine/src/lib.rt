// The engine: the calls of the stations on one show, over any kind of value and any two shelves.

#![tactic(auto)]

mod asking;
mod calling;
mod drafting;
mod ending;
pub mod fitting;
mod promoting;
mod starting;
mod taking;

use locks::table::LockTable;
use shelves::shelf::Shelf;
use std::marker::PhantomData;
use values::kind::Kind;

// What an engine is: the two shelves that it owns, and the lock table. Where they fit, the show has 1 to 1,984 records and the drafts
// 256 rows: place k of station s has row 16 s + k.
// No `impl Model`: what clauses would see could not name the rows of a shelf; they read an engine by `view` of `specs/View`.
#[derive(Drop)]
pub struct Engine<K: Kind, S: Shelf<K>, D: Shelf<K>> {
    pub(crate) show: S,
    pub(crate) drafts: D,
    pub(crate) locks: LockTable,
    pub(crate) kind: PhantomData<K>,
}
