// Any of the eleven calls, by its name and numbers.
ghost use Rattle.std.specs.Prelude.{◌≡◌, MatchResult};
ghost use Rattle.std.specs.Result.{ForOk};
ghost use Rattle.rules.specs.declared.Refusal.{Refusal};
ghost use Rattle.rules.specs.declared.Answer.TheVariants.{Refused};
ghost use Rattle.rules.specs.Orderly.{Orderly};
ghost use Rattle.engine.specs.View.{view};
ghost use Rattle.engine.specs.Answers.{as_answer, RuledNaming, Kept};

use crate::Engine;
use rules::{Answer, Call, Refusal};
use shelves::shelf::Shelf;
use values::kind::Kind;

// What a call answers: what `tell` makes of its result, or why it was refused.
fn told<T, V, F: FnOnce(T) -> Answer<V>>(made: Result<T, Refusal>, tell: F) -> Answer<V>
    requires { ForOk made (F.pre tell) }
    ensures { MatchResult made (λ x. F.post tell x result) (λ why. result ≡ Refused why) }
{
    match made {
        Ok(x) => tell(x),
        Err(why) => Answer::Refused(why),
    }
}

impl<K: Kind, S: Shelf<K>, D: Shelf<K>> Engine<K, S, D> {
    // Makes the call and answers what it answers. A refused call leaves the engine, its shelves too, as it was.
    pub fn answer(&mut self, call: Call<K::Change>) -> Answer<K::Value>
        ensures ruled { Orderly (view K.Kind S.Shelf D.Shelf self.old) → RuledNaming K.Kind S.Shelf D.Shelf call self.old result self.new }
        ensures refused { (why : Refusal) → result ≡ Refused why → self.new ≡ self.old }
        ensures show { Kept S.Shelf self.old.show self.new.show }
        ensures drafts { Kept D.Shelf self.old.drafts self.new.drafts }
    {
        match call {
            Call::Begin(station) => told(self.begin(station), |n| Answer::Number(n)),
            Call::Take(station, at, mode) => told(
                self.take(station, at, mode),
                |t| Answer::Taken(t.0, t.1),
            ),
            Call::Look(station, at) => told(self.look(station, at), |v| Answer::Value(v)),
            Call::Change(station, at, by) => told(
                self.change(station, at, by),
                |v| Answer::Value(v),
            ),
            Call::Retire(station, at) => told(self.retire(station, at), |n| Answer::Number(n)),
            Call::Commit(station) => told(self.commit(station), |n| Answer::Committed(n)),
            Call::GiveUp(station) => told(self.give_up(station), |n| Answer::Number(n)),
            Call::Again(station) => told(self.again(station), |n| Answer::Number(n)),
            Call::Standing(station) => told(self.standing(station), |s| Answer::Stands(s)),
            Call::Plotted(at) => told(self.plotted(at), |v| Answer::Value(v)),
            Call::Count => Answer::Number(self.count()),
        }
    }
}
