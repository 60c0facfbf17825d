//! Why a call stops without its output, and the line for it.

use crate::refusal::FileRefusal;
use krml_command::WordsRefusal;

/// Why a command ended without its output.
#[derive(Debug, Drop)]
pub enum Stop {
    Usage,
    ReadFault,
    /// The input was refused.
    Refused(FileRefusal),
    WriteFault,
    NoMemory,
}

impl From<FileRefusal> for Stop {
    ghost use Rattle.std.specs.Prelude.{◌≡◌};
    ghost use Rattle.krml_cli.specs.Steps.{of_refusal};

    ghost from_gives = { λ why e. e ≡ of_refusal why };

    fn from(why: FileRefusal) -> Stop {
        match why {
            FileRefusal::NoMemory => Stop::NoMemory,
            _ => Stop::Refused(why),
        }
    }
}

impl From<WordsRefusal> for Stop {
    ghost use Rattle.std.specs.Prelude.{◌≡◌};
    ghost use Rattle.krml_cli.specs.Steps.{of_words};

    ghost from_gives = { λ why e. e ≡ of_words why };

    fn from(why: WordsRefusal) -> Stop {
        match why {
            WordsRefusal::Usage => Stop::Usage,
            WordsRefusal::NoMemory => Stop::NoMemory,
        }
    }
}
