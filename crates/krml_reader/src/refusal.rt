//! Why a text is refused.

ghost use Rattle.std.specs.Prelude.{◌≡◌};
ghost use Rattle.krml_reader.specs.Refusal.{kind_word};

use krml_syntax::LimitKind;
use krml_trace::NoMemory;
use thiserror::Error;

/// Why no file was read. The cause that stands first here is answered, where there are several.
#[derive(Debug, Drop, Error)]
pub enum ReadRefusal {
    /// The text has more than 1,048,576 bytes.
    #[error("too large")]
    TooLarge,
    /// The byte of the first fault of syntax, counted from 0.
    #[error("syntax at {at}")]
    Syntax { at: u64 },
    /// The byte of the first `(` of a 65th level, counted from 0.
    #[error("nesting at {at}")]
    Nesting { at: u64 },
    /// The first form of the text that spells no definition, counted from 0.
    #[error("shape of form {form}")]
    Shape { form: u32 },
    /// The first kind of limit that is exceeded, and the count at the first place where it is.
    #[error("limit {} {count}", kind_word(*.which))]
    Limit { which: LimitKind, count: u64 },
    #[error("out of memory")]
    NoMemory,
}

impl From<NoMemory> for ReadRefusal {
    ghost use Rattle.std.specs.Prelude.{◌≡◌};
    ghost use Rattle.krml_reader.specs.declared.refusal.ReadRefusal.TheVariants.{NoMemory as OutOfMemory};

    ghost from_gives = { λ _ e. e ≡ OutOfMemory };

    fn from(_error: NoMemory) -> ReadRefusal {
        ReadRefusal::NoMemory
    }
}

/// The word for what a limit bounds.
pub fn kind_word(which: LimitKind) -> &'static str
    ensures { result.now ≡ kind_word which }
{
    match which {
        LimitKind::Definitions => "definitions",
        LimitKind::Name => "name",
        LimitKind::Forms => "forms",
        LimitKind::Variables => "variables",
        LimitKind::Parameters => "parameters",
        LimitKind::Fields => "fields",
        LimitKind::Constructors => "constructors",
        LimitKind::Elements => "elements",
    }
}
