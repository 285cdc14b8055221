// Promoting: waits become holds, until no wait may be granted.
ghost use Rattle.std.specs.Prelude.{◌≡◌, ◌<◌, length, Some};
ghost use Rattle.rules.specs.Operations.{draft_for, grant as grant_by_rules, settle as settle_by_rules};
ghost use Rattle.locks.specs.View.{awaited_at};
ghost use Rattle.engine.specs.View.{shown, drafted, held_of, stations_of, stands_before};
ghost use Rattle.engine.specs.Promoting.{Served, OnlyStations};

use crate::Engine;
use crate::fitting::draft_row;
use locks::table::LockTable;
use rules::Mode;
use shelves::shelf::Shelf;
use values::kind::Kind;

impl<K: Kind, S: Shelf<K>, D: Shelf<K>> Engine<K, S, D> {
    // The draft of the hold that station s is about to be granted: an exclusive one starts as what stands before it.
    fn start_draft(&mut self, s: usize, at: u32, mode: Mode)
        requires { Some (at, mode) ≡ awaited_at self.old.locks.stations s }
        ensures draft { length (D.Shelf.rows self.old.drafts) ≡ 256 → draft_for mode (drafted K.Kind D.Shelf self.new s (held_of self.old.locks s)) ≡ draft_for mode (stands_before K.Kind S.Shelf D.Shelf self.old s at) }
        ensures stations { stations_of K.Kind D.Shelf self.new ≡ stations_of K.Kind D.Shelf self.old }
        ensures locks { self.new.locks ≡ self.old.locks }
        ensures rest { OnlyStations D.Shelf self.old self.new }
    {
        if mode == Mode::Exclusive {
            let before = self.standing_before(s, at);
            let k = self.locks.held(s);
            let _ = self.drafts.write(draft_row(s, k), before);
        }
    }

    // Station s is granted what it waits for.
    fn grant(&mut self, s: usize)
        requires { s < 16 }
        ensures stations { Served D.Shelf self.old → stations_of K.Kind D.Shelf self.new ≡ grant_by_rules (shown K.Kind S.Shelf self.old) s (stations_of K.Kind D.Shelf self.old) }
        ensures served { Served D.Shelf self.old → Served D.Shelf self.new }
        ensures rest { OnlyStations D.Shelf self.old self.new }
    {
        if let Some((at, mode)) = self.locks.awaited(s) {
            self.start_draft(s, at, mode);
            self.locks.grant(s);
        }
    }

    // Grants one wait after the other while there is one that may be granted; each station has at most one.
    pub(crate) fn settle(&mut self)
        ensures stations { Served D.Shelf self.old → stations_of K.Kind D.Shelf self.new ≡ settle_by_rules (shown K.Kind S.Shelf self.old) (stations_of K.Kind D.Shelf self.old) }
        ensures rest { OnlyStations D.Shelf self.old self.new }
    {
        // Counts rounds, not stations: sixteen is the bound that the rules put on settling.
        for _round in 0..16usize {
            match self.locks.grantable() {
                Some(s) => self.grant(s),
                None => return,
            }
        }
    }
}
