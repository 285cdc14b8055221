// Lists of calls in plain numbers, played on a new engine.
use crate::coded::{AnswerNumbers, CallNumbers, Coded, call_of, numbers_of_answer};
use engine::Engine;
use image::shelf::BlockShelf;
use shelves::shelf::Shelf;
use shelves::table::Table;
use values::kind::Kind;
use values::level::Levels;
use values::timing::{TimingNumbers, Timings};

// Makes the calls one after the other and writes their answers; as many as there are of both.
fn play_numbers<K: Coded, S: Shelf<K> + Drop, D: Shelf<K> + Drop>(
    show: S,
    drafts: D,
    first: u32,
    calls: &[CallNumbers],
    answers: &mut [AnswerNumbers],
) {
    let mut engine: Engine<K, S, D> = Engine::open(show, drafts, first);
    for (call, answer) in calls.iter().zip(answers.iter_mut()) {
        *answer = numbers_of_answer::<K>(engine.answer(call_of::<K>(call)));
    }
}

// Plays on a show of levels in a table shelf. C has no generics: one entry for each kind.
#[unsafe(no_mangle)]
pub extern "C" fn bench_play_levels(
    show: &mut [u16],
    first: u32,
    calls: &[CallNumbers],
    answers: &mut [AnswerNumbers],
) {
    let mut rows = [0u16; 256];
    let show: Table<Levels> = Table { lines: show };
    let drafts: Table<Levels> = Table { lines: &mut rows };
    play_numbers::<Levels, Table<Levels>, Table<Levels>>(show, drafts, first, calls, answers);
}

// Plays on a show of timings in an image.
#[unsafe(no_mangle)]
pub extern "C" fn bench_play_timings(
    image: &mut [u8],
    first: u32,
    calls: &[CallNumbers],
    answers: &mut [AnswerNumbers],
) {
    let home = Timings::to_numbers(Timings::home());
    let mut rows = [home; 256];
    let show = BlockShelf { image };
    let drafts: Table<Timings> = Table { lines: &mut rows };
    play_numbers::<Timings, BlockShelf, Table<Timings>>(show, drafts, first, calls, answers);
}
