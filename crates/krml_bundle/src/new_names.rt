//! The names that C has for those of a file.

ghost use Rattle.std.specs.Prelude.{◌≡◌, IfOk};
ghost use Rattle.std.specs.List.{list_all};
ghost use Rattle.krml_trace.specs.Byte.{is_digit};
ghost use Rattle.krml_bundle.specs.Emitted.{is_number, with_prefix, emitted, emitted_fun, emitted_type, emitted_table, emitted_field};

use krml_ast::at_quote;
use krml_trace::{Name, NoMemory};
use std::alloc::Global;

fn are_digits(x: &[u8]) -> bool
    ensures { result ≡ list_all is_digit x.now }
{
    x.iter().all(|b| b.is_ascii_digit())
}

/// Whether there is one digit or more, and nothing else.
fn is_number(x: &[u8]) -> bool
    ensures { result ≡ is_number x.now }
{
    match x {
        [] => false,
        [first, rest @ ..] => first.is_ascii_digit() && are_digits(rest),
    }
}

/// PREFIX_NAME.
fn with_prefix(alloc: Global, prefix: &[u8], x: &[u8]) -> Result<Name, NoMemory>
    ensures { IfOk result (λ r. r ≡ with_prefix prefix.now x.now) }
{
    let mut bytes = Vec::new(alloc);
    bytes.extend_from_slice(prefix)?;
    bytes.push(b'_')?;
    bytes.extend_from_slice(x)?;
    Name::new(alloc, bytes.as_slice())
}

/// PREFIX_NAME, and PREFIXk_NAME for NAME'k, each with a prefix of its own.
fn emitted(alloc: Global, plain: &[u8], numbered: &[u8], x: &[u8]) -> Result<Name, NoMemory>
    ensures { IfOk result (λ r. r ≡ emitted plain.now numbered.now x.now) }
{
    let Some((name, number)) = at_quote(x) else {
        return with_prefix(alloc, plain, x);
    };
    if !is_number(number) {
        return with_prefix(alloc, plain, x);
    }
    let mut bytes = Vec::new(alloc);
    bytes.extend_from_slice(numbered)?;
    bytes.extend_from_slice(number)?;
    bytes.push(b'_')?;
    bytes.extend_from_slice(name)?;
    Name::new(alloc, bytes.as_slice())
}

/// The new name of a function.
pub(crate) fn emitted_fun(alloc: Global, x: &Name) -> Result<Name, NoMemory>
    ensures { IfOk result (λ r. r ≡ emitted_fun x.now) }
{
    emitted(alloc, b"f", b"g", x.as_bytes())
}

/// The new name of a struct or a sum.
pub(crate) fn emitted_type(alloc: Global, x: &Name) -> Result<Name, NoMemory>
    ensures { IfOk result (λ r. r ≡ emitted_type x.now) }
{
    emitted(alloc, b"s", b"s", x.as_bytes())
}

/// The new name of a table.
pub(crate) fn emitted_table(alloc: Global, x: &Name) -> Result<Name, NoMemory>
    ensures { IfOk result (λ r. r ≡ emitted_table x.now) }
{
    with_prefix(alloc, b"t", x.as_bytes())
}

/// The new name of a field.
pub(crate) fn emitted_field(alloc: Global, x: &Name) -> Result<Name, NoMemory>
    ensures { IfOk result (λ r. r ≡ emitted_field x.now) }
{
    with_prefix(alloc, b"m", x.as_bytes())
}
