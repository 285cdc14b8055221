// Commit and give up.
ghost use Rattle.std.specs.Prelude.{◌≡◌, ◌<◌, true, false, not, ◌&&◌, is_ok, ◌==◌};
ghost use Rattle.rules.specs.declared.Answer.TheVariants.{Number, Committed};
ghost use Rattle.rules.specs.declared.Call.TheVariants.{Commit, GiveUp};
ghost use Rattle.rules.specs.Searches.{count_below};
ghost use Rattle.rules.specs.Tables.{idle_station, put};
ghost use Rattle.rules.specs.Operations.{wound, wounded_by_give_up, settle as settle_by_rules};
ghost use Rattle.rules.specs.Orderly.{Orderly};
ghost use Rattle.locks.specs.View.{active_at};
ghost use Rattle.engine.specs.View.{shown, drafted, stations_of, own_hold, with_draft, with_own_drafts, view};
ghost use Rattle.engine.specs.Answers.{as_answer, Ruled, RuledNaming, Kept};
ghost use Rattle.engine.specs.Promoting.{Served, OnlyStations};

use crate::Engine;
use locks::set::StationSet;
use rules::{Mode, Refusal};
use shelves::shelf::Shelf;
use values::kind::Kind;

impl<K: Kind, S: Shelf<K>, D: Shelf<K>> Engine<K, S, D> {
    // Writes the draft of the hold at place k of station s to the show, if it is exclusive.
    fn write_draft(&mut self, s: usize, k: usize)
        requires { (s < 16) × (k < 16) }
        ensures rows { S.Shelf.rows self.new.show ≡ with_draft (own_hold self.old.locks s k) (drafted K.Kind D.Shelf self.old s k) (S.Shelf.rows self.old.show) }
        ensures show { Kept S.Shelf self.old.show self.new.show }
        ensures drafts { self.new.drafts ≡ self.old.drafts }
        ensures locks { self.new.locks ≡ self.old.locks }
    {
        if let Some(hold) = self.locks.hold(s, k) {
            if hold.mode == Mode::Exclusive {
                let draft = self.draft_at(s, k);
                let _ = self.show.write(hold.at as usize, draft);
            }
        }
    }

    // Writes the drafts of station s to the show.
    fn write_drafts(&mut self, s: usize)
        requires { s < 16 }
        ensures rows { S.Shelf.rows self.new.show ≡ with_own_drafts (drafted K.Kind D.Shelf self.old s) self.old.locks s (S.Shelf.rows self.old.show) }
        ensures show { Kept S.Shelf self.old.show self.new.show }
        ensures drafts { self.new.drafts ≡ self.old.drafts }
        ensures locks { self.new.locks ≡ self.old.locks }
    {
        // By place: a walk over the holds gets no proof, since the checker does not follow `locks` lent while `show` is written.
        for k in 0..self.locks.held(s) {
            self.write_draft(s, k);
        }
    }

    // Writes the drafts of the station's exclusive holds to the show, ends its attempt and settles. Answers the commit number.
    pub fn commit(&mut self, station: u32) -> Result<u32, Refusal>
        ensures ruled { Orderly (view K.Kind S.Shelf D.Shelf self.old) → RuledNaming K.Kind S.Shelf D.Shelf (Commit station) self.old (as_answer Committed result) self.new }
        ensures refused { is_ok result ≡ false → self.new ≡ self.old }
        ensures show { Kept S.Shelf self.old.show self.new.show }
        ensures drafts { Kept D.Shelf self.old.drafts self.new.drafts }
    {
        let s = self.locks.admit_commit(station)?;
        self.write_drafts(s);
        let number = self.locks.commit(s);
        self.settle();
        Ok(number)
    }

    // Wounds the attempt of station s and whoever rests on it, makes the station idle and settles. Answers how many others were
    // wounded.
    fn withdraw(&mut self, s: usize) -> u32
        requires { (s < 16) × (active_at self.old.locks.stations s ≡ true) }
        ensures number { result ≡ count_below 16 (λ j. not (j == s) && wounded_by_give_up (stations_of K.Kind D.Shelf self.old) s j) }
        ensures stations { Served D.Shelf self.old → (let t = stations_of K.Kind D.Shelf self.old in stations_of K.Kind D.Shelf self.new ≡ settle_by_rules (shown K.Kind S.Shelf self.old) (put (wound (wounded_by_give_up t s) t) s idle_station)) }
        ensures rest { OnlyStations D.Shelf self.old self.new }
    {
        let own = StationSet::alone(s);
        let wounded = self.locks.widen(own);
        self.locks.wound(&wounded);
        self.locks.free(s);
        self.settle();
        wounded.without(&own).count()
    }

    // Ends the attempt of a station without a commit; a wounded station becomes idle. Answers how many other attempts were wounded.
    pub fn give_up(&mut self, station: u32) -> Result<u32, Refusal>
        ensures ruled { Orderly (view K.Kind S.Shelf D.Shelf self.old) → Ruled K.Kind S.Shelf D.Shelf (GiveUp station) self.old (as_answer Number result) self.new }
        ensures refused { is_ok result ≡ false → self.new ≡ self.old }
        ensures show { self.new.show ≡ self.old.show }
        ensures drafts { Kept D.Shelf self.old.drafts self.new.drafts }
    {
        let s = self.locks.admit_give_up(station)?;
        if self.locks.is_wounded(s) {
            self.locks.free(s);
            Ok(0)
        } else {
            Ok(self.withdraw(s))
        }
    }
}
