// Standing, plotted and count.
ghost use Rattle.rules.specs.declared.Answer.TheVariants.{Number, Value, Stands};
ghost use Rattle.rules.specs.declared.Call.TheVariants.{Standing as StandingCall, Plotted, Count};
ghost use Rattle.engine.specs.Answers.{as_answer, Ruled};

use crate::Engine;
use rules::{Refusal, Standing};
use shelves::shelf::Shelf;
use values::kind::Kind;

impl<K: Kind, S: Shelf<K>, D: Shelf<K>> Engine<K, S, D> {
    // The state of a station, its stamp unless it is idle, its bonds, and the record that it waits for, if it waits.
    pub fn standing(&self, station: u32) -> Result<Standing, Refusal>
        ensures { Ruled K.Kind S.Shelf D.Shelf (StandingCall station) self.now (as_answer Stands result) self.now }
    {
        self.locks.standing(station)
    }

    // The show's value of a record.
    pub fn plotted(&self, at: u32) -> Result<K::Value, Refusal>
        ensures { Ruled K.Kind S.Shelf D.Shelf (Plotted at) self.now (as_answer Value result) self.now }
    {
        if at < self.records() {
            Ok(self.value_at(at))
        } else {
            Err(Refusal::Record)
        }
    }

    // The number of records.
    pub fn count(&self) -> u32
        ensures { Ruled K.Kind S.Shelf D.Shelf Count self.now (Number result) self.now }
    {
        self.records()
    }
}
