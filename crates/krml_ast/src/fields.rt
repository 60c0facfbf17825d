//! The type of a field, found by the field's name.

ghost use Rattle.std.specs.Prelude.{◌≡◌, option_map};
ghost use Rattle.krml_ast.specs.Names.{field_named};

use krml_syntax::{Field, Ty};
use krml_trace::Name;

/// The type of the first field of a name.
pub fn field_named<'a>(fields: &'a [Field], x: &Name) -> Option<&'a Ty>
    ensures { option_map (λ a. a.now) result ≡ field_named fields.now x.now }
{
    let [field, rest @ ..] = fields else {
        return None;
    };
    if field.name.is(x) {
        Some(&field.ty)
    } else {
        field_named(rest, x)
    }
}
