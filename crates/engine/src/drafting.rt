// Look and change: what a holder sees at a record, and its draft changed.
ghost use Rattle.std.specs.Prelude.{◌≡◌, ◌<◌, false, is_ok};
ghost use Rattle.rules.specs.declared.Answer.TheVariants.{Value};
ghost use Rattle.rules.specs.declared.Call.TheVariants.{Look, Change};
ghost use Rattle.rules.specs.Operations.{or_else};
ghost use Rattle.engine.specs.View.{own_draft, stands_before};
ghost use Rattle.engine.specs.Answers.{as_answer, Ruled, Kept};

use crate::Engine;
use crate::fitting::draft_row;
use rules::{Mode, Refusal};
use shelves::shelf::Shelf;
use values::kind::Kind;

impl<K: Kind, S: Shelf<K>, D: Shelf<K>> Engine<K, S, D> {
    // What stands before station s at a record.
    pub(crate) fn standing_before(&self, s: usize, at: u32) -> K::Value
        ensures { result ≡ stands_before K.Kind S.Shelf D.Shelf self.now s at }
    {
        self.locks
            .before(s, at)
            .map_or_else(|| self.value_at(at), |(j, k)| self.draft_at(j, k))
    }

    // What station s sees at a record that it holds at place k: its own draft, or what stands before it.
    fn value_seen(&self, s: usize, k: usize, at: u32) -> K::Value
        requires { (s < 16) × (k < 16) }
        ensures { result ≡ or_else (own_draft K.Kind D.Shelf self.now s k) (stands_before K.Kind S.Shelf D.Shelf self.now s at) }
    {
        match self.locks.hold(s, k) {
            Some(hold) if hold.mode == Mode::Exclusive => self.draft_at(s, k),
            _ => self.standing_before(s, at),
        }
    }

    // The draft of an exclusive hold, or what stands before a shared one.
    pub fn look(&self, station: u32, at: u32) -> Result<K::Value, Refusal>
        ensures { Ruled K.Kind S.Shelf D.Shelf (Look station at) self.now (as_answer Value result) self.now }
    {
        let records = self.records();
        let (s, k) = self.locks.admit_hold(station, at, records)?;
        Ok(self.value_seen(s, k, at))
    }

    // Applies a change to the draft of an exclusive hold, and answers the new draft.
    pub fn change(&mut self, station: u32, at: u32, by: K::Change) -> Result<K::Value, Refusal>
        ensures ruled { Ruled K.Kind S.Shelf D.Shelf (Change station at by) self.old (as_answer Value result) self.new }
        ensures refused { is_ok result ≡ false → self.new ≡ self.old }
        ensures show { self.new.show ≡ self.old.show }
        ensures drafts { Kept D.Shelf self.old.drafts self.new.drafts }
    {
        let records = self.records();
        let (s, k) = self.locks.admit_change(station, at, records)?;
        let new = K::apply(self.draft_at(s, k), by);
        let _ = self.drafts.write(draft_row(s, k), new);
        Ok(new)
    }
}
