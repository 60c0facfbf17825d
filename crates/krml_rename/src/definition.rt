//! Copies of definitions and of files.

ghost use Rattle.std.specs.Prelude.{◌≡◌, IfOk, IsOkAnd};
ghost use Rattle.krml_syntax.specs.declared.tree.Def.TheVariants as d;

use crate::copy::{boxed_clone, clone_each, clone_ty};
use crate::made::Part;
use krml_syntax::{Con, Def, Field, IntTy, SourceFile, Ty};
use krml_trace::{Name, NoMemory, Seq, both};
use std::alloc::Global;

/// Copies of names.
fn clone_names(alloc: Global, names: &[Name]) -> Result<Seq<Name>, NoMemory>
    ensures { IfOk result (λ r. r ≡ names.now) }
{
    let mut all = Seq::new(alloc);
    for x in names {
        all.push(x.copy(alloc)?)?;
    }
    Ok(all)
}

/// Copies of fields or of parameters.
fn clone_fields(alloc: Global, fields: &[Field]) -> Result<Seq<Field>, NoMemory>
    ensures { IfOk result (λ r. r ≡ fields.now) }
{
    let mut all = Seq::new(alloc);
    for field in fields {
        let ty = clone_ty(alloc, &field.ty)?;
        let name = field.name.copy(alloc)?;
        all.push(Field { name, ty })?;
    }
    Ok(all)
}

/// Copies of constructors.
fn clone_cons(alloc: Global, cons: &[Con]) -> Result<Seq<Con>, NoMemory>
    ensures { IfOk result (λ r. r ≡ cons.now) }
{
    let mut all = Seq::new(alloc);
    for con in cons {
        let args = clone_each(alloc, con.args.as_slice())?;
        let name = con.name.copy(alloc)?;
        all.push(Con { name, args })?;
    }
    Ok(all)
}

/// A struct.
fn structure(
    name: Result<Name, NoMemory>,
    vars: Result<Seq<Name>, NoMemory>,
    fields: Result<Seq<Field>, NoMemory>,
) -> Result<Def, NoMemory>
    ensures { IfOk result (λ r. IsOkAnd name (λ x. IsOkAnd vars (λ vars. IsOkAnd fields (λ fields. r ≡ d.Struct x vars fields)))) }
{
    let (name, (vars, fields)) = both(name, both(vars, fields))?;
    Ok(Def::Struct { name, vars, fields })
}

/// A sum.
fn sum(
    name: Result<Name, NoMemory>,
    vars: Result<Seq<Name>, NoMemory>,
    cons: Result<Seq<Con>, NoMemory>,
) -> Result<Def, NoMemory>
    ensures { IfOk result (λ r. IsOkAnd name (λ x. IsOkAnd vars (λ vars. IsOkAnd cons (λ cons. r ≡ d.Sum x vars cons)))) }
{
    let (name, (vars, cons)) = both(name, both(vars, cons))?;
    Ok(Def::Sum { name, vars, cons })
}

/// A table.
fn table(
    name: Result<Name, NoMemory>,
    ty: IntTy,
    nums: Result<Seq<u64>, NoMemory>,
) -> Result<Def, NoMemory>
    ensures { IfOk result (λ r. IsOkAnd name (λ x. IsOkAnd nums (λ nums. r ≡ d.Table x ty nums))) }
{
    let (name, nums) = both(name, nums)?;
    Ok(Def::Table { name, ty, nums })
}

/// A function.
fn function(
    name: Result<Name, NoMemory>,
    vars: Result<Seq<Name>, NoMemory>,
    params: Result<Seq<Field>, NoMemory>,
    gives: Result<Ty, NoMemory>,
    body: Part,
) -> Result<Def, NoMemory>
    ensures { IfOk result (λ r. IsOkAnd name (λ x. IsOkAnd vars (λ vars. IsOkAnd params (λ params.
        IsOkAnd gives (λ gives. IsOkAnd body (λ body. r ≡ d.Fun x vars params gives body)))))) }
{
    let ((name, vars), (params, (result, body))) = both(
        both(name, vars),
        both(params, both(gives, body)),
    )?;
    let body = body.into_inner();
    Ok(Def::Fun {
        name,
        vars,
        params,
        result,
        body,
    })
}

/// An entry.
fn entry(name: Result<Name, NoMemory>) -> Result<Def, NoMemory>
    ensures { IfOk result (λ r. IsOkAnd name (λ x. r ≡ d.Entry x)) }
{
    let name = name?;
    Ok(Def::Entry { name })
}

/// A function with another body: its name, its type variables, its parameters and its result are copied.
pub fn fun_with(
    alloc: Global,
    name: &Name,
    vars: &[Name],
    params: &[Field],
    gives: &Ty,
    body: Part,
) -> Result<Def, NoMemory>
    ensures { IfOk result (λ r. IsOkAnd body (λ b. r ≡ d.Fun name.now vars.now params.now gives.now b)) }
{
    let vars = clone_names(alloc, vars);
    let params = clone_fields(alloc, params);
    function(name.copy(alloc), vars, params, clone_ty(alloc, gives), body)
}

/// A copy of a definition.
pub fn clone_def(alloc: Global, def: &Def) -> Result<Def, NoMemory>
    ensures { IfOk result (λ r. r ≡ def.now) }
{
    match def {
        Def::Struct { name, vars, fields } => {
            let vars = clone_names(alloc, vars.as_slice());
            structure(
                name.copy(alloc),
                vars,
                clone_fields(alloc, fields.as_slice()),
            )
        }
        Def::Sum { name, vars, cons } => {
            let vars = clone_names(alloc, vars.as_slice());
            sum(name.copy(alloc), vars, clone_cons(alloc, cons.as_slice()))
        }
        Def::Table { name, ty, nums } => {
            table(
                name.copy(alloc),
                *ty,
                Seq::from_slice(alloc, nums.as_slice()),
            )
        }
        Def::Fun {
            name,
            vars,
            params,
            result,
            body,
        } => {
            let body = boxed_clone(alloc, body);
            fun_with(
                alloc,
                name,
                vars.as_slice(),
                params.as_slice(),
                result,
                body,
            )
        }
        Def::Entry { name } => entry(name.copy(alloc)),
    }
}

/// A copy of a file.
pub fn clone_file(alloc: Global, file: &SourceFile) -> Result<SourceFile, NoMemory>
    ensures { IfOk result (λ r. r ≡ file.now) }
{
    let mut defs = Seq::new(alloc);
    for def in file.defs.as_slice() {
        defs.push(clone_def(alloc, def)?)?;
    }
    Ok(SourceFile { defs })
}
