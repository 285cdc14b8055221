// Playing a list of calls on a new engine.
ghost use Rattle.std.specs.Prelude.{map};
ghost use Rattle.engine.specs.View.{opened_on, view};
ghost use Rattle.engine.specs.Answers.{Kept};
ghost use Rattle.runs.specs.LawfulRun.{call_of, LawfulRun};

use crate::played::Played;
use engine::Engine;
use shelves::shelf::Shelf;
use values::kind::Kind;

/// Opens an engine on the two shelves, fit or not, makes the calls of the script one after the other and notes their answers. The engine
/// that it returns owns the shelves as the run left them.
pub fn play<K: Kind, S: Shelf<K>, D: Shelf<K>>(
    show: S,
    drafts: D,
    first: u32,
    script: &mut [Played<K::Value, K::Change>],
) -> Engine<K, S, D>
    ensures lawful { LawfulRun K.Kind.applied (opened_on K.Kind S.Shelf D.Shelf show drafts first) (map call_of script.old) script.new (view K.Kind S.Shelf D.Shelf result) }
    ensures show { Kept S.Shelf show result.show }
    ensures drafts { Kept D.Shelf drafts result.drafts }
{
    let mut engine = Engine::open(show, drafts, first);
    for entry in script {
        entry.answer = Some(engine.answer(entry.call));
    }
    engine
}
