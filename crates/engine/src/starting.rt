// Begin and again.
ghost use Rattle.std.specs.Prelude.{◌≡◌, false, is_ok};
ghost use Rattle.rules.specs.declared.Answer.TheVariants.{Number};
ghost use Rattle.rules.specs.declared.Call.TheVariants.{Begin, Again};
ghost use Rattle.engine.specs.Answers.{as_answer, Ruled};

use crate::Engine;
use rules::Refusal;
use shelves::shelf::Shelf;
use values::kind::Kind;

impl<K: Kind, S: Shelf<K>, D: Shelf<K>> Engine<K, S, D> {
    // Starts an attempt under the next stamp, which it answers.
    pub fn begin(&mut self, station: u32) -> Result<u32, Refusal>
        ensures ruled { Ruled K.Kind S.Shelf D.Shelf (Begin station) self.old (as_answer Number result) self.new }
        ensures refused { is_ok result ≡ false → self.new ≡ self.old }
        ensures show { self.new.show ≡ self.old.show }
        ensures drafts { self.new.drafts ≡ self.old.drafts }
    {
        let s = self.locks.admit_begin(station)?;
        Ok(self.locks.begin(s))
    }

    // Starts the wounded attempt of a station again, under its stamp.
    pub fn again(&mut self, station: u32) -> Result<u32, Refusal>
        ensures ruled { Ruled K.Kind S.Shelf D.Shelf (Again station) self.old (as_answer Number result) self.new }
        ensures refused { is_ok result ≡ false → self.new ≡ self.old }
        ensures show { self.new.show ≡ self.old.show }
        ensures drafts { self.new.drafts ≡ self.old.drafts }
    {
        let s = self.locks.admit_again(station)?;
        Ok(self.locks.again(s))
    }
}
