//! Lists with room for what forms spell.

ghost use Rattle.std.specs.Prelude.{◌≡◌, [], IfOk};

use krml_forms::Form;
use krml_trace::{NoMemory, Seq};
use std::alloc::Global;

/// An empty list, with room for an item for each of these forms. An error is want of memory.
pub fn room_for<T>(alloc: Global, forms: &[Form]) -> Result<Seq<T>, NoMemory>
    ensures { IfOk result (λ list. list ≡ []) }
{
    let items = Vec::with_capacity(alloc, forms.len())?;
    Ok(Seq::from_vec(items))
}
