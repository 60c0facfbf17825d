//! Why what was looked for is not given.

use std::alloc::AllocError;

/// Why what was looked for is not given.
#[derive(Debug, Drop)]
pub enum Missing {
    /// There is none.
    Absent,
    NoMemory,
}

impl From<AllocError> for Missing {
    ghost use Rattle.std.specs.Prelude.{◌≡◌};
    ghost use Rattle.krml_trace.specs.declared.missing.Missing.TheVariants.{NoMemory as OutOfMemory};

    ghost from_gives = { λ _ e. e ≡ OutOfMemory };

    fn from(_error: AllocError) -> Missing {
        Missing::NoMemory
    }
}
