//! Why types are refused.

use krml_trace::NoMemory;
use thiserror::Error;

/// Why a file has no types.
#[derive(Debug, Drop, Error)]
pub enum TypeRefusal {
    /// The first definition that is not well typed, by its place from 0.
    #[error("type fault in definition {def}")]
    Fault { def: u32 },
    #[error("out of memory")]
    NoMemory,
}

impl From<NoMemory> for TypeRefusal {
    ghost use Rattle.std.specs.Prelude.{◌≡◌};
    ghost use Rattle.krml_types.specs.declared.refusal.TypeRefusal.TheVariants.{NoMemory as OutOfMemory};

    ghost from_gives = { λ _ e. e ≡ OutOfMemory };

    fn from(_error: NoMemory) -> TypeRefusal {
        TypeRefusal::NoMemory
    }
}
