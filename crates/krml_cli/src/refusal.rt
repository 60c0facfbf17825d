//! Why an input is refused, and the words for it.

ghost use Rattle.std.specs.Prelude.{◌≡◌, ◌++◌, codes, IfOk, IsOkAnd};
ghost use Rattle.std.specs.String.{string_bytes};
ghost use Rattle.std.specs.Fmt.{decimal};
ghost use Rattle.krml_cli.specs.Accept.{IsNotBuiltAt};
ghost use Rattle.krml_cli.specs.Refusal.{read_refusal_words, match_refusal_words, hoist_refusal_words, refusal_words, refusal_line};

use krml_hoist::HoistRefusal;
use krml_match::MatchRefusal;
use krml_reader::{ReadRefusal, kind_word};
use krml_trace::{Name, NoMemory, count};
use krml_types::TypeRefusal;
use std::alloc::Global;
use thiserror::Error;

/// Why a source text is refused. The cause that stands first here is answered, where there are several.
#[derive(Debug, Drop, Error)]
pub enum FileRefusal {
    /// The text spells no file within the limits.
    #[error(transparent)]
    Read(ReadRefusal),
    /// The first definition that is not well typed, by its place from 0.
    #[error("type fault in definition {def}")]
    Type { def: u32 },
    /// The first definition outside the part of the language that is built, by its place from 0.
    #[error("not built {def}")]
    NotBuilt { def: u32 },
    /// The first type with more leaves than a type may have.
    #[error(transparent)]
    Wide(MatchRefusal),
    /// The first frame that takes more bytes than a frame may.
    #[error(transparent)]
    Frame(HoistRefusal),
    #[error("out of memory")]
    NoMemory,
}

impl FileRefusal {
    /// The refusal for the definition of a place, which is not built. No file within the limits has so many definitions
    /// that a place does not fit: that would be want of memory.
    pub fn not_built(place: usize) -> FileRefusal
        ensures { IsNotBuiltAt place result }
    {
        match count(place) {
            Ok(def) => FileRefusal::NotBuilt { def },
            Err(_) => FileRefusal::NoMemory,
        }
    }
}

impl From<ReadRefusal> for FileRefusal {
    ghost use Rattle.std.specs.Prelude.{◌≡◌};
    ghost use Rattle.krml_cli.specs.Refusal.{of_read};

    ghost from_gives = { λ why e. e ≡ of_read why };

    fn from(why: ReadRefusal) -> FileRefusal {
        match why {
            ReadRefusal::NoMemory => FileRefusal::NoMemory,
            _ => FileRefusal::Read(why),
        }
    }
}

impl From<TypeRefusal> for FileRefusal {
    ghost use Rattle.std.specs.Prelude.{◌≡◌};
    ghost use Rattle.krml_cli.specs.Refusal.{of_type};

    ghost from_gives = { λ why e. e ≡ of_type why };

    fn from(why: TypeRefusal) -> FileRefusal {
        match why {
            TypeRefusal::Fault { def } => FileRefusal::Type { def },
            TypeRefusal::NoMemory => FileRefusal::NoMemory,
        }
    }
}

impl From<MatchRefusal> for FileRefusal {
    ghost use Rattle.std.specs.Prelude.{◌≡◌};
    ghost use Rattle.krml_cli.specs.Refusal.{of_match};

    ghost from_gives = { λ why e. e ≡ of_match why };

    fn from(why: MatchRefusal) -> FileRefusal {
        match why {
            MatchRefusal::NoMemory => FileRefusal::NoMemory,
            _ => FileRefusal::Wide(why),
        }
    }
}

impl From<HoistRefusal> for FileRefusal {
    ghost use Rattle.std.specs.Prelude.{◌≡◌};
    ghost use Rattle.krml_cli.specs.Refusal.{of_hoist};

    ghost from_gives = { λ why e. e ≡ of_hoist why };

    fn from(why: HoistRefusal) -> FileRefusal {
        match why {
            HoistRefusal::NoMemory => FileRefusal::NoMemory,
            _ => FileRefusal::Frame(why),
        }
    }
}

impl From<NoMemory> for FileRefusal {
    ghost use Rattle.std.specs.Prelude.{◌≡◌};
    ghost use Rattle.krml_cli.specs.declared.refusal.FileRefusal.TheVariants.{NoMemory as OutOfMemory};

    ghost from_gives = { λ _ e. e ≡ OutOfMemory };

    fn from(_error: NoMemory) -> FileRefusal {
        FileRefusal::NoMemory
    }
}

fn read_refusal_words(alloc: Global, why: &ReadRefusal) -> Result<String, NoMemory>
    ensures { IfOk result (λ words. string_bytes words ≡ read_refusal_words why.now) }
{
    match why {
        ReadRefusal::TooLarge => String::from_str(alloc, "too large"),
        ReadRefusal::Syntax { at } => format!(in alloc; "syntax at {at}"),
        ReadRefusal::Nesting { at } => format!(in alloc; "nesting at {at}"),
        ReadRefusal::Shape { form } => format!(in alloc; "shape of form {form}"),
        ReadRefusal::Limit { which, count } => {
            let kind = kind_word(*which);
            format!(in alloc; "limit {kind} {count}")
        }
        ReadRefusal::NoMemory => String::from_str(alloc, "out of memory"),
    }
}

/// The bytes of words.
fn bytes_of(words: Result<String, NoMemory>) -> Result<Vec<u8>, NoMemory>
    ensures { IfOk result (λ bytes. IsOkAnd words (λ words. bytes.items ≡ string_bytes words)) }
{
    Ok(words?.into_bytes())
}

/// A name between words, with a number and what stands behind it. A name is bytes, so it is written as it is.
fn named(
    alloc: Global,
    before: &[u8],
    name: &Name,
    n: u64,
    behind: &[u8],
) -> Result<Vec<u8>, NoMemory>
    ensures { IfOk result (λ words. words.items ≡ before.now ++ name.now ++ codes " " ++ decimal n ++ behind.now) }
{
    let mut words = Vec::from_slice(alloc, before)?;
    words.extend_from_slice(name.as_bytes())?;
    words.extend_from_slice(format!(in alloc; " {n}")?.as_bytes())?;
    words.extend_from_slice(behind)?;
    Ok(words)
}

fn match_refusal_words(alloc: Global, why: &MatchRefusal) -> Result<Vec<u8>, NoMemory>
    ensures { IfOk result (λ words. words.items ≡ match_refusal_words why.now) }
{
    match why {
        MatchRefusal::Wide { name, leaves } => named(alloc, b"wide ", name, *leaves, b""),
        MatchRefusal::NoMemory => Ok(Vec::from_slice(alloc, b"out of memory")?),
    }
}

fn hoist_refusal_words(alloc: Global, why: &HoistRefusal) -> Result<Vec<u8>, NoMemory>
    ensures { IfOk result (λ words. words.items ≡ hoist_refusal_words why.now) }
{
    match why {
        HoistRefusal::FrameTooLarge { fun, bytes } => named(
            alloc,
            b"frame of ",
            fun,
            *bytes,
            b" bytes",
        ),
        HoistRefusal::NoMemory => Ok(Vec::from_slice(alloc, b"out of memory")?),
    }
}

fn refusal_words(alloc: Global, why: &FileRefusal) -> Result<Vec<u8>, NoMemory>
    ensures { IfOk result (λ words. words.items ≡ refusal_words why.now) }
{
    match why {
        FileRefusal::Read(why) => bytes_of(read_refusal_words(alloc, why)),
        FileRefusal::Type { def } => bytes_of(format!(in alloc; "type fault in definition {def}")),
        FileRefusal::NotBuilt { def } => bytes_of(format!(in alloc; "not built {def}")),
        FileRefusal::Wide(why) => match_refusal_words(alloc, why),
        FileRefusal::Frame(why) => hoist_refusal_words(alloc, why),
        FileRefusal::NoMemory => Ok(Vec::from_slice(alloc, b"out of memory")?),
    }
}

/// The line that notes a refusal.
pub fn refusal_line(alloc: Global, why: &FileRefusal) -> Result<Vec<u8>, NoMemory>
    ensures { IfOk result (λ line. line.items ≡ refusal_line why.now) }
{
    let words = refusal_words(alloc, why)?;
    let mut line = Vec::from_slice(alloc, b"krml: refused: ")?;
    line.extend_from_slice(words.as_slice())?;
    line.push(b'\n')?;
    Ok(line)
}
