//! The layout of a type, and of what a definition defines.

ghost use Rattle.std.specs.Prelude.{◌≡◌, ◌≤◌, ℕ, map, length, None, IfSome, IfNone, is_some};
ghost use Rattle.std.specs.List.{flat_map};
ghost use Rattle.krml_ast.specs.Names.{type_here, type_named};
ghost use Rattle.krml_ast.specs.Leaves.{composite_of};
ghost use Rattle.krml_layout.specs.Layout.{scalar, empty, layout_of, layout_within};
ghost use Rattle.krml_layout.specs.Bounds.{max_bytes};
ghost use Rattle.krml_layout.specs.Ordered.{AreInOrder, Defines};
ghost use Rattle.krml_layout.specs.Found.{known_layout, named_in, with_members, IsSound};

use crate::layout::TypeLayout;
use crate::layout_map::LayoutMap;
use krml_syntax::{Con, Def, Field, Ty};
use krml_trace::{Name, Width};

/// Where the layouts of structs and sums are found.
#[derive(Clone, Copy)]
pub enum Known<'b, 'a> {
    /// In a map.
    Map(&'b LayoutMap<'a>),
    /// Among definitions, where they are computed anew, without memory.
    Among(&'b [Def]),
}

/// The layout of a type.
#[cycle(known)]
pub fn type_layout(known: &Known<'_, '_>, a: &Ty) -> TypeLayout
    requires { IsSound known.now }
    ensures { result ≡ known_layout known.now a.now }
{
    match a {
        Ty::Bool => TypeLayout::bool(),
        Ty::Int(i) => TypeLayout::int(i.width),
        Ty::Named(x, _) => named(known, x),
        _ => TypeLayout::empty(),
    }
}

/// The layout of the struct or sum of a name. One that is not known takes no room.
#[cycle(known)]
fn named(known: &Known<'_, '_>, x: &Name) -> TypeLayout
    requires { IsSound known.now }
    ensures { result ≡ named_in known.now x.now }
{
    match known {
        Known::Map(layouts) => layouts.get(x.as_bytes()).unwrap_or(TypeLayout::empty()),
        Known::Among(defs) => among(defs, x),
    }
}

#[cycle(known)]
fn among(defs: &[Def], x: &Name) -> TypeLayout
    requires { AreInOrder defs.now }
    ensures { result ≡ layout_of (layout_within (length defs.now) defs.now) (type_named defs.now x.now) }
{
    match definition(defs, x) {
        Some((before, def)) => def_layout(&Known::Among(before), def),
        None => TypeLayout::empty(),
    }
}

/// The layout of what a definition defines. One that defines no struct or sum takes no room.
#[cycle(known)]
pub fn def_layout(known: &Known<'_, '_>, def: &Def) -> TypeLayout
    requires sound { IsSound known.now }
    requires fits { (layout_of (known_layout known.now) (composite_of def.now)).size ≤ max_bytes }
    ensures { result ≡ layout_of (known_layout known.now) (composite_of def.now) }
{
    match def {
        Def::Struct { fields, .. } => of_fields(known, fields.as_slice()),
        Def::Sum { cons, .. } => of_cons(known, cons.as_slice()),
        _ => TypeLayout::empty(),
    }
}

#[cycle(known)]
fn of_fields(known: &Known<'_, '_>, fields: &[Field]) -> TypeLayout
    requires sound { IsSound known.now }
    requires fits { (with_members known.now empty (map (λ f. f.ty) fields.now)).size ≤ max_bytes }
    ensures { result ≡ with_members known.now empty (map (λ f. f.ty) fields.now) }
{
    let mut layout = TypeLayout::empty();
    for field in fields {
        layout = layout.with_member(type_layout(known, &field.ty));
    }
    layout
}

/// The number of the constructor, and then the arguments of each.
#[cycle(known)]
fn of_cons(known: &Known<'_, '_>, cons: &[Con]) -> TypeLayout
    requires sound { IsSound known.now }
    requires fits { (with_members known.now (scalar 1) (flat_map (λ c. c.args) cons.now)).size ≤ max_bytes }
    ensures { result ≡ with_members known.now (scalar 1) (flat_map (λ c. c.args) cons.now) }
{
    let mut layout = TypeLayout::int(Width::W8);
    for con in cons {
        layout = with_args(known, layout, con.args.as_slice());
    }
    layout
}

#[cycle(known)]
fn with_args(known: &Known<'_, '_>, before: TypeLayout, args: &[Ty]) -> TypeLayout
    requires sound { IsSound known.now }
    requires fits { (with_members known.now before args.now).size ≤ max_bytes }
    ensures { result ≡ with_members known.now before args.now }
{
    let mut layout = before;
    for a in args {
        layout = layout.with_member(type_layout(known, a));
    }
    layout
}

/// The last definition of the struct or sum of a name, and the definitions before it. A search from the end and the walk over what is
/// found go through each definition once, since that is made of earlier ones.
fn definition<'a>(defs: &'a [Def], x: &Name) -> Option<(&'a [Def], &'a Def)>
    ensures found { IfSome result (λ r. Defines defs.now x.now r.0.now r.1.now) }
    ensures none { IfNone result (type_named defs.now x.now ≡ None) }
{
    let mut left = defs;
    while let [before @ .., def] = left {
        if defines(def, x) {
            return Some((before, def));
        }
        left = before;
    }
    None
}

/// Whether a definition is that of the struct or sum of a name.
fn defines(def: &Def, x: &Name) -> bool
    ensures { result ≡ is_some (type_here x.now def.now) }
{
    match def {
        Def::Struct { name, .. } => name.is(x),
        Def::Sum { name, .. } => name.is(x),
        _ => false,
    }
}
