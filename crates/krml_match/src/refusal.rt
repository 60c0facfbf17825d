//! Why a file's matches do not become cases.

use krml_trace::{Name, NoMemory};
use thiserror::Error;

/// Why a file's matches do not become cases.
#[derive(Debug, Drop, Error)]
pub enum MatchRefusal {
    /// The first struct or sum that has more leaves than it may have: its name in the source, and its leaves.
    #[error("wide {name} {leaves}")]
    Wide { name: Name, leaves: u64 },
    #[error("out of memory")]
    NoMemory,
}

impl From<NoMemory> for MatchRefusal {
    ghost use Rattle.std.specs.Prelude.{◌≡◌};
    ghost use Rattle.krml_match.specs.declared.refusal.MatchRefusal.TheVariants.{NoMemory as OutOfMemory};

    ghost from_gives = { λ _ e. e ≡ OutOfMemory };

    fn from(_error: NoMemory) -> MatchRefusal {
        MatchRefusal::NoMemory
    }
}
