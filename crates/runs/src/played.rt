// One call of a run and what it was answered.
use rules::{Answer, Call};

/// A call, and its answer once it has been played.
#[derive(Clone, Copy, Drop)]
pub struct Played<V, C> {
    pub call: Call<C>,
    pub answer: Option<Answer<V>>,
}
