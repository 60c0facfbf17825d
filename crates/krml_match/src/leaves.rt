//! The leaves of types, counted once for each definition.

ghost use Rattle.std.specs.Prelude.{◌≡◌, ◌+◌, ◌∷◌, IfOk, map};
ghost use Rattle.std.specs.List.{flat_map, sum_by};
ghost use Rattle.krml_ast.specs.Leaves.{tag_type, leaves_of, composite_of};
ghost use Rattle.krml_match.specs.Counted.{of_named, counted};

use krml_ast::{Con, Def, Field, NameKind, Names, Ty};
use krml_trace::{Name, NoMemory};

/// A sum that fits. One that does not is want of memory: more leaves than that stand in no file.
fn plus(a: u64, b: u64) -> Result<u64, NoMemory>
    ensures { IfOk result (λ r. r ≡ a + b) }
{
    match a.checked_add(b) {
        Some(n) => Ok(n),
        None => Err(NoMemory),
    }
}

/// The leaves that were counted for the struct or sum of a name.
fn of_named(names: &Names, counts: &[u64], x: &Name) -> u64
    ensures { result ≡ of_named counts.now names.now x.now }
{
    match names.place(NameKind::Type, x) {
        Some(k) => counts.get(k).copied().unwrap_or(0),
        None => 0,
    }
}

/// The leaves of a type, where those of each earlier definition were counted.
fn counted(names: &Names, counts: &[u64], a: &Ty) -> u64
    ensures { result ≡ counted counts.now names.now a.now }
{
    match a {
        Ty::Bool | Ty::Int(_) | Ty::Buf(_) => 1,
        Ty::Unit | Ty::Var(_) => 0,
        Ty::Named(x, _) => of_named(names, counts, x),
    }
}

/// The leaves of types.
fn of_types(names: &Names, counts: &[u64], types: &[Ty]) -> Result<u64, NoMemory>
    ensures { IfOk result (λ r. r ≡ sum_by (counted counts.now names.now) types.now) }
{
    let mut all = 0;
    for a in types {
        all = plus(all, counted(names, counts, a))?;
    }
    Ok(all)
}

/// The leaves of fields.
fn of_fields(names: &Names, counts: &[u64], fields: &[Field]) -> Result<u64, NoMemory>
    ensures { IfOk result (λ r. r ≡ sum_by (counted counts.now names.now) (map (λ f. f.ty) fields.now)) }
{
    let mut all = 0;
    for field in fields {
        all = plus(all, counted(names, counts, &field.ty))?;
    }
    Ok(all)
}

/// The leaves of the arguments of constructors.
fn of_cons(names: &Names, counts: &[u64], cons: &[Con]) -> Result<u64, NoMemory>
    ensures { IfOk result (λ r. r ≡ sum_by (counted counts.now names.now) (flat_map (λ c. c.args) cons.now)) }
{
    let mut all = 0;
    for con in cons {
        all = plus(all, of_types(names, counts, con.args.as_slice())?)?;
    }
    Ok(all)
}

/// The leaves of what a definition defines, where those of each earlier one were counted.
pub(crate) fn of_def(names: &Names, counts: &[u64], def: &Def) -> Result<u64, NoMemory>
    ensures { IfOk result (λ r. r ≡ leaves_of (counted counts.now names.now) (composite_of def.now)) }
{
    match def {
        Def::Struct { fields, .. } => of_fields(names, counts, fields.as_slice()),
        Def::Sum { cons, .. } => of_sum(names, counts, cons.as_slice()),
        _ => Ok(0),
    }
}

/// The leaves of a sum: the number of the constructor is one.
#[tactic(auto, using(crate::proofs::Counted::sum_counted))]
fn of_sum(names: &Names, counts: &[u64], cons: &[Con]) -> Result<u64, NoMemory>
    ensures { IfOk result (λ r. r ≡ sum_by (counted counts.now names.now) (tag_type ∷ flat_map (λ c. c.args) cons.now)) }
{
    plus(1, of_cons(names, counts, cons)?)
}
