//! Why words of a command line are refused.

use krml_trace::NoMemory;
use thiserror::Error;

/// Why the words are no request.
#[derive(Debug, Drop, Error)]
pub enum WordsRefusal {
    /// The words are no command line, name no command, or hold a value out of its form or range.
    #[error("usage")]
    Usage,
    #[error("out of memory")]
    NoMemory,
}

impl From<NoMemory> for WordsRefusal {
    ghost use Rattle.std.specs.Prelude.{◌≡◌};
    ghost use Rattle.krml_command.specs.declared.refusal.WordsRefusal.TheVariants.{NoMemory as OutOfMemory};

    ghost from_gives = { λ _ e. e ≡ OutOfMemory };

    fn from(_error: NoMemory) -> WordsRefusal {
        WordsRefusal::NoMemory
    }
}
