//! Names of instances: NAME'k is the k-th instance of what is called NAME.

ghost use Rattle.std.specs.Prelude.{◌≡◌, IfOk, option_map};
ghost use Rattle.krml_ast.specs.Instances.{at_quote, source_name};

use krml_trace::{Name, NoMemory};
use std::alloc::Global;

/// What stands before the first quote, and behind it.
pub fn at_quote(x: &[u8]) -> Option<(&[u8], &[u8])>
    ensures { option_map (λ p. (p.0.now, p.1.now)) result ≡ at_quote x.now }
{
    for (n, b) in x.iter().enumerate() {
        if *b == b'\'' {
            return Some((&x[..n], &x[n + 1..]));
        }
    }
    None
}

/// The name that the source has for what is called so.
pub fn source_name(alloc: Global, x: &Name) -> Result<Name, NoMemory>
    ensures { IfOk result (λ r. r ≡ source_name x.now) }
{
    match at_quote(x.as_bytes()) {
        Some((name, _)) => Name::new(alloc, name),
        None => x.copy(alloc),
    }
}
