//! The names of variables in C.

ghost use Rattle.std.specs.Prelude.{◌≡◌, ◌++◌, ◌∷◌, IfOk};
ghost use Rattle.krml_cstar.specs.Variables.{plain, named};

use krml_trace::{Name, NoMemory};
use std::alloc::Global;

/// The name of the variable of a number that the source does not have. An error is want of memory.
pub fn plain(alloc: Global, number: u32) -> Result<Name, NoMemory>
    ensures { IfOk result (λ r. r ≡ plain number) }
{
    let text = format!(in alloc; "v{number}")?;
    Name::new(alloc, text.as_bytes())
}

/// The name of the variable of a number that the source calls so. One whose name begins with a quote was made by a pass.
/// An error is want of memory.
pub fn named(alloc: Global, number: u32, variable: &Name) -> Result<Name, NoMemory>
    ensures { IfOk result (λ r. r ≡ named number variable.now) }
{
    let bytes = variable.as_bytes();
    let [first, ..] = bytes else {
        return plain(alloc, number);
    };
    if *first == b'\'' {
        return plain(alloc, number);
    }
    let text = plain(alloc, number)?;
    joined(alloc, text.as_bytes(), bytes)
}

/// Two parts of a name, with a line between them. An error is want of memory.
fn joined(alloc: Global, prefix: &[u8], bytes: &[u8]) -> Result<Name, NoMemory>
    ensures { IfOk result (λ r. r ≡ prefix.now ++ 95 ∷ bytes.now) }
{
    let mut all = Vec::from_slice(alloc, prefix)?;
    all.push(b'_')?;
    all.extend_from_slice(bytes)?;
    Name::new(alloc, all.as_slice())
}
