// Take and retire.
ghost use Rattle.std.specs.Prelude.{◌≡◌, false, is_ok, if◌then◌else◌};
ghost use Rattle.rules.specs.declared.Outcome.TheVariants.{Granted, Waits};
ghost use Rattle.rules.specs.declared.Answer.TheVariants.{Number};
ghost use Rattle.rules.specs.declared.Call.TheVariants.{Take, Retire};
ghost use Rattle.rules.specs.Tables.{is_waiting};
ghost use Rattle.locks.specs.View.{bare};
ghost use Rattle.engine.specs.Answers.{as_answer, taken, Ruled, Kept};

use crate::Engine;
use rules::{Mode, Outcome, Refusal};
use shelves::shelf::Shelf;
use values::kind::Kind;

impl<K: Kind, S: Shelf<K>, D: Shelf<K>> Engine<K, S, D> {
    // What became of a take of station s: it waits, or it was granted.
    fn outcome(&self, s: usize) -> Outcome
        ensures { result ≡ (if is_waiting (bare self.now.locks.stations s).phase then Waits else Granted) }
    {
        if self.locks.awaited(s).is_some() {
            Outcome::Waits
        } else {
            Outcome::Granted
        }
    }

    // Wounds the younger holders whose mode conflicts and whoever rests on them, waits for the record, and settles. Answers what became
    // of the take, and how many attempts were wounded.
    pub fn take(&mut self, station: u32, at: u32, mode: Mode) -> Result<(Outcome, u32), Refusal>
        ensures ruled { Ruled K.Kind S.Shelf D.Shelf (Take station at mode) self.old (as_answer taken result) self.new }
        ensures refused { is_ok result ≡ false → self.new ≡ self.old }
        ensures show { self.new.show ≡ self.old.show }
        ensures drafts { Kept D.Shelf self.old.drafts self.new.drafts }
    {
        let records = self.records();
        let s = self.locks.admit_take(station, at, records)?;
        let wounded = self.locks.widen(self.locks.must_yield(s, at, mode));
        self.locks.wound(&wounded);
        self.locks.wait(s, at, mode);
        self.settle();
        Ok((self.outcome(s), wounded.count()))
    }

    // Turns an owned hold to retired and settles. Answers how many waits were granted.
    pub fn retire(&mut self, station: u32, at: u32) -> Result<u32, Refusal>
        ensures ruled { Ruled K.Kind S.Shelf D.Shelf (Retire station at) self.old (as_answer Number result) self.new }
        ensures refused { is_ok result ≡ false → self.new ≡ self.old }
        ensures show { self.new.show ≡ self.old.show }
        ensures drafts { Kept D.Shelf self.old.drafts self.new.drafts }
    {
        let records = self.records();
        let (s, k) = self.locks.admit_hold(station, at, records)?;
        let waited = self.locks.waiting();
        self.locks.retire(s, k);
        self.settle();
        Ok(waited.without(&self.locks.waiting()).count())
    }
}
