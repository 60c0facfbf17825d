//! The names that definitions give: which are new, and which are distinct.

ghost use Rattle.std.specs.Prelude.{◌≡◌, take};
ghost use Rattle.krml_ast.specs.declared.kind.NameKind.TheVariants as kinds;
ghost use Rattle.krml_ast.specs.Places.{cons_of, names_in};
ghost use Rattle.krml_ast.specs.WellTyped.{names_of};
ghost use Rattle.krml_types.specs.Definitions.{is_fresh, distinct_names, is_given, is_new, all_new};

use crate::index::Index;
use krml_ast::NameKind;
use krml_syntax::{Con, Field};
use krml_trace::Name;

/// Whether a definition before a place gives a name of a kind.
pub fn is_given(index: &Index<'_>, kind: NameKind, k: usize, x: &Name) -> bool
    ensures { result ≡ is_given (names_in kind) (take k index.now) x.now }
{
    match index.names().place(kind, x) {
        Some(j) => j < k,
        None => false,
    }
}

/// Whether no definition before a place gives a name of a kind.
pub fn is_new(index: &Index<'_>, kind: NameKind, k: usize, x: &Name) -> bool
    ensures { result ≡ is_new kind (take k index.now) x.now }
{
    !is_given(index, kind, k, x)
}

/// The same of constructors.
pub fn all_new(index: &Index<'_>, k: usize, cons: &[Con]) -> bool
    ensures { result ≡ all_new kinds.Con (take k index.now) (cons_of cons.now) }
{
    for con in cons {
        if !is_new(index, NameKind::Con, k, &con.name) {
            return false;
        }
    }
    true
}

fn is_fresh(names: &[Name], x: &Name) -> bool
    ensures { result ≡ is_fresh names.now x.now }
{
    for name in names {
        if x.is(name) {
            return false;
        }
    }
    true
}

/// Whether no two type variables have one name.
pub fn are_distinct(names: &[Name]) -> bool
    ensures { result ≡ distinct_names names.now }
{
    let [x, rest @ ..] = names else {
        return true;
    };
    is_fresh(rest, x) && are_distinct(rest)
}

fn is_fresh_field(fields: &[Field], x: &Name) -> bool
    ensures { result ≡ is_fresh (names_of fields.now) x.now }
{
    for field in fields {
        if x.is(&field.name) {
            return false;
        }
    }
    true
}

/// Whether no two fields or parameters have one name.
pub fn are_fields_distinct(fields: &[Field]) -> bool
    ensures { result ≡ distinct_names (names_of fields.now) }
{
    let [field, rest @ ..] = fields else {
        return true;
    };
    is_fresh_field(rest, &field.name) && are_fields_distinct(rest)
}

fn is_fresh_con(cons: &[Con], x: &Name) -> bool
    ensures { result ≡ is_fresh (cons_of cons.now) x.now }
{
    for con in cons {
        if x.is(&con.name) {
            return false;
        }
    }
    true
}

/// Whether no two constructors have one name.
pub fn are_cons_distinct(cons: &[Con]) -> bool
    ensures { result ≡ distinct_names (cons_of cons.now) }
{
    let [con, rest @ ..] = cons else {
        return true;
    };
    is_fresh_con(rest, &con.name) && are_cons_distinct(rest)
}
