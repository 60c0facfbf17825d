//! Which types are flat, and which are well formed.

ghost use Rattle.std.specs.Prelude.{◌≡◌, take};
ghost use Rattle.krml_syntax.specs.declared.tree.Ty.{out-Ty};
ghost use Rattle.krml_syntax.specs.Types.{is_unit_in};
ghost use Rattle.krml_ast.specs.Names.{type_named};
ghost use Rattle.krml_ast.specs.Places.{is_among};
ghost use Rattle.krml_types.specs.Parts.{is_value as is_value_ty};
ghost use Rattle.krml_types.specs.Types.{is_flat, takes, is_type_by, are_arguments_by, is_type, are_arguments};

use crate::index::Index;
use crate::names::is_given;
use krml_ast::NameKind;
use krml_syntax::Ty;
use krml_trace::Name;

pub fn is_unit(a: &Ty) -> bool
    ensures { result ≡ is_unit_in (out-Ty a.now) }
{
    matches!(a, Ty::Unit)
}

/// Whether a type is one of values.
pub fn is_value(a: &Ty) -> bool
    ensures { result ≡ is_value_ty a.now }
{
    !is_unit(a)
}

/// Whether a type is one of values and holds no buffer.
#[tactic(auto, unfolding(crate::specs::Types::is_flat))]
pub fn is_flat(index: &Index<'_>, a: &Ty) -> bool
    ensures { result ≡ is_flat index.now a.now }
{
    is_value(a) && !index.holds(a)
}

fn is_among(vars: &[Name], x: &Name) -> bool
    ensures { result ≡ is_among vars.now x.now }
{
    for v in vars {
        if v.is(x) {
            return true;
        }
    }
    false
}

/// Whether the struct or sum of a name stands before a place, and has so many type variables.
fn takes(index: &Index<'_>, k: usize, x: &Name, n: usize) -> bool
    ensures { result ≡ takes (type_named (take k index.now) x.now) n }
{
    if !is_given(index, NameKind::Type, k, x) {
        return false;
    }
    match index.names().vars_named(x) {
        Some(vars) => n == vars.len(),
        None => false,
    }
}

/// Whether a type is well formed where its names mean those before a place, and buffers are held as in the whole file.
#[cycle(formed)]
pub fn is_type_before(index: &Index<'_>, k: usize, tvars: &[Name], a: &Ty) -> bool
    ensures { result ≡ is_type_by (type_named (take k index.now)) (is_flat index.now) tvars.now a.now }
{
    match a {
        Ty::Bool => true,
        Ty::Unit => true,
        Ty::Int(_) => true,
        Ty::Buf(b) => is_type_before(index, k, tvars, b.get()) && is_flat(index, b.get()),
        Ty::Var(x) => is_among(tvars, x),
        Ty::Named(x, args) => {
            takes(index, k, x, args.len()) && are_arguments_before(index, k, tvars, args.as_slice())
        }
    }
}

/// Whether types are well formed and flat, as type arguments are.
#[cycle(formed)]
pub fn are_arguments_before(index: &Index<'_>, k: usize, tvars: &[Name], args: &[Ty]) -> bool
    ensures { result ≡ are_arguments_by (type_named (take k index.now)) (is_flat index.now) tvars.now args.now }
{
    for a in args {
        if !(is_type_before(index, k, tvars, a) && is_flat(index, a)) {
            return false;
        }
    }
    true
}

/// Whether a type is well formed in the file.
#[tactic(auto, unfolding(crate::specs::Types::is_type))]
pub fn is_type(index: &Index<'_>, tvars: &[Name], a: &Ty) -> bool
    ensures { result ≡ is_type index.now tvars.now a.now }
{
    is_type_before(index, index.len(), tvars, a)
}

/// The same in the file.
pub fn are_arguments(index: &Index<'_>, tvars: &[Name], args: &[Ty]) -> bool
    ensures { result ≡ are_arguments index.now tvars.now args.now }
{
    are_arguments_before(index, index.len(), tvars, args)
}
