//! Why a run ends before it is done.

use crate::outcome::Cause;

/// Why a run ended before it was done, in any of the languages.
#[derive(Clone, Copy, Debug, PartialEq, Eq)]
pub enum Why {
    /// No tick was left.
    Spent,
    /// No level was left for a call.
    Deep,
    /// The meaning of the source goes no further, for this cause.
    Stuck(Cause),
    /// The meaning of the language says nothing of what came.
    Undefined,
    /// The run of a WebAssembly module trapped.
    Trapped,
}
