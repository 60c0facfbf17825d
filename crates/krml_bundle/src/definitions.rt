//! Definitions under the new names, and the new names of entries.

ghost use Rattle.std.specs.Prelude.{◌≡◌, IfOk, map};
ghost use Rattle.std.specs.List.{flat_map};
ghost use Rattle.krml_bundle.specs.Bundled.{field_bundled, param_bundled, con_bundled, def_bundled, names_of_def};

use crate::expressions::expr_bundled;
use crate::new_names::{emitted_field, emitted_fun, emitted_table, emitted_type};
use crate::types::{ty_bundled, types_bundled};
use krml_ast::Emitted;
use krml_syntax::{Con, Def, Field};
use krml_trace::{Name, NoMemory, Seq};
use std::alloc::Global;

/// Copies of names.
fn each_copied(alloc: Global, names: &[Name]) -> Result<Seq<Name>, NoMemory>
    ensures { IfOk result (λ r. r ≡ names.now) }
{
    let mut all = Seq::new(alloc);
    for x in names {
        all.push(x.copy(alloc)?)?;
    }
    Ok(all)
}

/// Fields under the new names.
fn fields_bundled(alloc: Global, fields: &[Field]) -> Result<Seq<Field>, NoMemory>
    ensures { IfOk result (λ r. r ≡ map field_bundled fields.now) }
{
    let mut all = Seq::new(alloc);
    for field in fields {
        let ty = ty_bundled(alloc, &field.ty)?;
        let name = emitted_field(alloc, &field.name)?;
        all.push(Field { name, ty })?;
    }
    Ok(all)
}

/// Parameters whose types have the new names.
fn params_bundled(alloc: Global, params: &[Field]) -> Result<Seq<Field>, NoMemory>
    ensures { IfOk result (λ r. r ≡ map param_bundled params.now) }
{
    let mut all = Seq::new(alloc);
    for param in params {
        let ty = ty_bundled(alloc, &param.ty)?;
        let name = param.name.copy(alloc)?;
        all.push(Field { name, ty })?;
    }
    Ok(all)
}

/// Constructors whose arguments have the new names in their types.
fn cons_bundled(alloc: Global, cons: &[Con]) -> Result<Seq<Con>, NoMemory>
    ensures { IfOk result (λ r. r ≡ map con_bundled cons.now) }
{
    let mut all = Seq::new(alloc);
    for con in cons {
        let args = types_bundled(alloc, con.args.as_slice())?;
        let name = con.name.copy(alloc)?;
        all.push(Con { name, args })?;
    }
    Ok(all)
}

/// A definition under the new names.
fn def_bundled(alloc: Global, def: &Def) -> Result<Def, NoMemory>
    ensures { IfOk result (λ r. r ≡ def_bundled def.now) }
{
    match def {
        Def::Struct { name, vars, fields } => Ok(Def::Struct {
            name: emitted_type(alloc, name)?,
            vars: each_copied(alloc, vars.as_slice())?,
            fields: fields_bundled(alloc, fields.as_slice())?,
        }),
        Def::Sum { name, vars, cons } => Ok(Def::Sum {
            name: emitted_type(alloc, name)?,
            vars: each_copied(alloc, vars.as_slice())?,
            cons: cons_bundled(alloc, cons.as_slice())?,
        }),
        Def::Table { name, ty, nums } => Ok(Def::Table {
            name: emitted_table(alloc, name)?,
            ty: *ty,
            nums: Seq::from_slice(alloc, nums.as_slice())?,
        }),
        Def::Fun {
            name,
            vars,
            params,
            result,
            body,
        } => Ok(Def::Fun {
            name: emitted_fun(alloc, name)?,
            vars: each_copied(alloc, vars.as_slice())?,
            params: params_bundled(alloc, params.as_slice())?,
            result: ty_bundled(alloc, result)?,
            body: expr_bundled(alloc, body)?,
        }),
        Def::Entry { name } => Ok(Def::Entry {
            name: emitted_fun(alloc, name)?,
        }),
    }
}

/// Definitions under the new names.
pub(crate) fn defs_bundled(alloc: Global, defs: &[Def]) -> Result<Seq<Def>, NoMemory>
    ensures { IfOk result (λ r. r ≡ map def_bundled defs.now) }
{
    let mut all = Seq::new(alloc);
    for def in defs {
        all.push(def_bundled(alloc, def)?)?;
    }
    Ok(all)
}

/// The new name of each entry, in the order of the definitions.
pub(crate) fn names_of(alloc: Global, defs: &[Def]) -> Result<Seq<Emitted>, NoMemory>
    ensures { IfOk result (λ r. r ≡ flat_map names_of_def defs.now) }
{
    let mut all = Seq::new(alloc);
    for def in defs {
        if let Def::Entry { name } = def {
            let entry = name.copy(alloc)?;
            let name = emitted_fun(alloc, name)?;
            all.push(Emitted { entry, name })?;
        }
    }
    Ok(all)
}
