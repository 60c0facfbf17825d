//! Why files are refused.

use krml_trace::{Name, NoMemory};
use thiserror::Error;

/// Why a file is not hoisted.
#[derive(Debug, Drop, Error)]
pub enum HoistRefusal {
    /// The first frame, by the order of the file and its text, that takes too many bytes: the function that it stands in, as
    /// the source names it, and the bytes.
    #[error("frame of {fun} {bytes} bytes")]
    FrameTooLarge { fun: Name, bytes: u64 },
    #[error("out of memory")]
    NoMemory,
}

impl From<NoMemory> for HoistRefusal {
    ghost use Rattle.std.specs.Prelude.{◌≡◌};
    ghost use Rattle.krml_hoist.specs.declared.refusal.HoistRefusal.TheVariants.{NoMemory as OutOfMemory};

    ghost from_gives = { λ _ e. e ≡ OutOfMemory };

    fn from(_error: NoMemory) -> HoistRefusal {
        HoistRefusal::NoMemory
    }
}
