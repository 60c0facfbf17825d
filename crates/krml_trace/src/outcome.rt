//! What a run comes to.

use sqlite_items::Items as Seq;

/// Why a run of the source is stuck.
#[derive(Clone, Copy, Debug, PartialEq, Eq)]
pub enum Cause {
    Index,
    Slice,
    Divisor,
    Shift,
    Match,
}

/// How a run ended.
#[derive(Drop)]
pub enum Outcome {
    /// The result, where the function has one, and the final contents of the argument buffers in order.
    /// A truth value is 0 or 1.
    Done {
        result: Option<u64>,
        buffers: Seq<Seq<u64>>,
    },
    /// No tick was left.
    Spent,
    /// No level was left for a call.
    Deep,
    /// The meaning of the source goes no further, for this cause.
    Stuck(Cause),
    /// The meaning of the language says nothing of what came.
    Undefined,
    /// The run of a WebAssembly module trapped.
    Trapped,
}
