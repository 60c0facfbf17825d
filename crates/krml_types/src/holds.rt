//! Which structs of a file hold buffers. Where structs name earlier ones alone, one pass from the first to the last tells. In a file
//! that is not well typed they may name later ones, and one another in circles, so rounds follow until one adds none.

ghost use Rattle.std.specs.Prelude.{◌≡◌, [], IfOk, map};
ghost use Rattle.krml_syntax.specs.declared.tree.Ty.{out-Ty};
ghost use Rattle.krml_types.specs.Holds.{is_set, holds_by, struct_place, at_place, part_in, parts_of, parts_in, part_holds, any_part, set_more, same_table, swept, holders};

use crate::part::Part;
use krml_ast::{NameKind, Names};
use krml_syntax::{Def, Field, Ty};
use krml_trace::{Name, NoMemory, Seq};
use std::alloc::Global;

/// Whether a type is a buffer, or of a struct that is set.
pub fn holds_by(names: &Names<'_>, table: &[bool], a: &Ty) -> bool
    ensures { result ≡ holds_by names.now table.now a.now }
{
    part_holds(table, &part_of(names, a))
}

/// Whether a struct that is set has the name, and no sum before it.
pub fn is_set(names: &Names<'_>, table: &[bool], x: &Name) -> bool
    ensures { result ≡ is_set names.now table.now x.now }
{
    part_holds(table, &part_named(names, x))
}

/// The place of the first struct of a name, where no sum of that name stands before it.
fn struct_place(names: &Names<'_>, x: &Name) -> Option<usize>
    ensures { result ≡ struct_place names.now x.now }
{
    names.struct_named(x)?;
    names.place(NameKind::Type, x)
}

fn part_named(names: &Names<'_>, x: &Name) -> Part
    ensures { result ≡ at_place (struct_place names.now x.now) }
{
    match struct_place(names, x) {
        Some(k) => Part::At(k),
        None => Part::Nothing,
    }
}

fn part_of(names: &Names<'_>, a: &Ty) -> Part
    ensures { result ≡ part_in names.now (out-Ty a.now) }
{
    match a {
        Ty::Buf(_) => Part::Buffer,
        Ty::Named(x, _) => part_named(names, x),
        _ => Part::Nothing,
    }
}

fn parts_of(alloc: Global, names: &Names<'_>, fields: &[Field]) -> Result<Seq<Part>, NoMemory>
    ensures { IfOk result (λ r. r ≡ parts_of names.now fields.now) }
{
    let mut parts = Seq::new(alloc);
    for field in fields {
        parts.push(part_of(names, &field.ty))?;
    }
    Ok(parts)
}

fn parts_in(alloc: Global, names: &Names<'_>, def: &Def) -> Result<Seq<Part>, NoMemory>
    ensures { IfOk result (λ r. r ≡ parts_in names.now def.now) }
{
    match def {
        Def::Struct { fields, .. } => parts_of(alloc, names, fields.as_slice()),
        _ => Ok(Seq::new(alloc)),
    }
}

fn all_parts(alloc: Global, names: &Names<'_>) -> Result<Seq<Seq<Part>>, NoMemory>
    ensures { IfOk result (λ r. r ≡ map (parts_in names.now) names.now) }
{
    let mut all = Seq::new(alloc);
    for def in names.defs() {
        all.push(parts_in(alloc, names, def)?)?;
    }
    Ok(all)
}

fn part_holds(table: &[bool], part: &Part) -> bool
    ensures { result ≡ part_holds table.now part.now }
{
    match part {
        Part::Buffer => true,
        Part::At(k) => match table.get(*k) {
            Some(set) => *set,
            None => false,
        },
        Part::Nothing => false,
    }
}

fn any_part(table: &[bool], parts: &[Part]) -> bool
    ensures { result ≡ any_part table.now parts.now }
{
    for part in parts {
        if part_holds(table, part) {
            return true;
        }
    }
    false
}

fn round(alloc: Global, all: &[Seq<Part>], table: &[bool]) -> Result<Seq<bool>, NoMemory>
    ensures { IfOk result (λ r. r ≡ set_more (any_part table.now) all.now table.now) }
{
    let mut next = Seq::new(alloc);
    let mut left = table;
    for parts in all {
        let [set, rest @ ..] = left else {
            return Ok(next);
        };
        next.push(*set || any_part(table, parts.as_slice()))?;
        left = rest;
    }
    Ok(next)
}

/// Each set by what the ones before it are, from the first to the last.
fn swept(alloc: Global, all: &[Seq<Part>]) -> Result<Seq<bool>, NoMemory>
    ensures { IfOk result (λ r. r ≡ swept all.now []) }
{
    let mut table = Seq::new(alloc);
    for parts in all {
        let set = any_part(table.as_slice(), parts.as_slice());
        table.push(set)?;
    }
    Ok(table)
}

fn same_table(table: &[bool], other: &[bool]) -> bool
    ensures { result ≡ same_table table.now other.now }
{
    let mut left = other;
    for set in table {
        let [there, rest @ ..] = left else {
            return false;
        };
        if *set != *there {
            return false;
        }
        left = rest;
    }
    left.is_empty()
}

/// A truth value for each definition: whether it is a struct that holds a buffer.
pub fn settled(alloc: Global, names: &Names<'_>) -> Result<Seq<bool>, NoMemory>
    ensures { IfOk result (λ r. r ≡ holders names.now) }
{
    let all = all_parts(alloc, names)?;
    let mut table = swept(alloc, all.as_slice())?;
    let mut left = names.defs().len();
    while left > 0 {
        left -= 1;
        let next = round(alloc, all.as_slice(), table.as_slice())?;
        if same_table(next.as_slice(), table.as_slice()) {
            return Ok(table);
        }
        table = next;
    }
    Ok(table)
}
