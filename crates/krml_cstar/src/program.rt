//! Programs of C for files.

ghost use Rattle.std.specs.Prelude.{◌≡◌, ◌≤◌, ◌^◌, length, Some, None, IfOk, OnOk, map, if◌then◌else◌};
ghost use Rattle.krml_ast.specs.FileTypes.{IsBundled};
ghost use Rattle.krml_ctree.specs.WellFormed.{WellFormed};
ghost use Rattle.krml_cstar.specs.Built.{AreBuilt};
ghost use Rattle.krml_cstar.specs.Count.{variables_of, HaveFewVariables};
ghost use Rattle.krml_cstar.specs.Theorem.{DoesTheSame};
ghost use Rattle.krml_cstar.specs.Types.{ctype, is_unit};
ghost use Rattle.krml_cstar.specs.Variables.{named};
ghost use Rattle.krml_cstar.specs.Translation.{code_of, params_from, cvars, fun_code, program_of};
ghost use Rattle.krml_cstar.specs.Scopes.{known};
ghost use Rattle.krml_cstar.specs.Emitting.{field_code, with_def, apart};

use crate::emitter::Emitter;
use crate::given::{Branch, with_code};
use crate::locals::{Local, Locals};
use crate::names::named;
use crate::types::{ctype, cvar, is_unit};
use krml_ast::{BundledFile, Def, Expr, Field, IntTy, Names, SourceFile, Ty, clone_ty};
use krml_ctree::{CExpr, CFun, CProgram, CStruct, CTable, CType, CVar};
use krml_trace::{Box, Name, NoMemory, Seq, both, count};
use std::alloc::Global;

/// The fields of a struct.
fn members(alloc: Global, fields: &[Field]) -> Result<Seq<CVar>, NoMemory>
    ensures { IfOk result (λ r. r ≡ map field_code fields.now) }
{
    let mut all = Seq::new(alloc);
    for field in fields {
        all.push(cvar(ctype(alloc, &field.ty), field.name.copy(alloc))?)?;
    }
    Ok(all)
}

/// A parameter as C has it.
fn parameter(alloc: Global, k: usize, param: &Field) -> Result<CVar, NoMemory>
    ensures { IfOk result (λ r. r ≡ record { ty = ctype param.now.ty; name = named k param.now.name }) }
{
    let k = count(k)?;
    cvar(ctype(alloc, &param.ty), named(alloc, k, &param.name))
}

/// The parameters as C has them.
fn variables(alloc: Global, params: &[Field]) -> Result<Seq<CVar>, NoMemory>
    ensures { IfOk result (λ r. r ≡ cvars (params_from 0 params.now)) }
{
    let mut all = Seq::new(alloc);
    for (k, param) in params.iter().enumerate() {
        all.push(parameter(alloc, k, param)?)?;
    }
    Ok(all)
}

/// A parameter in scope.
fn local<'a>(alloc: Global, k: usize, param: &'a Field) -> Result<Local<'a>, NoMemory>
    ensures { IfOk result (λ r. known r ≡ record { name = param.now.name; emitted = named k param.now.name; ty = param.now.ty }) }
{
    let k = count(k)?;
    let (emitted, ty) = both(named(alloc, k, &param.name), clone_ty(alloc, &param.ty))?;
    Ok(Local {
        name: &param.name,
        emitted,
        ty,
    })
}

/// The parameters in scope. The first one is the newest.
fn scope<'a>(alloc: Global, params: &'a [Field]) -> Result<Locals<'a>, NoMemory>
    ensures { IfOk result (λ r. r ≡ params_from 0 params.now) }
{
    let mut scope = Locals::new(alloc);
    let mut k = params.len();
    while k > 0 {
        k -= 1;
        scope.push(local(alloc, k, &params[k])?)?;
    }
    Ok(scope)
}

/// No number of 32 bits is more than names tell apart.
fn few(n: u32)
    ensures { n ≤ 2 ^ 64 }
{}

/// The body of a function.
fn emitted<'a>(alloc: Global, defs: &Names<'a>, params: &'a [Field], body: &'a Expr) -> Branch
    ensures value { IfOk result (λ r. r ≡ apart ((code_of defs.now body.now).run (params_from 0 params.now) (length params.now))) }
    ensures few { IfOk result (λ r. ((code_of defs.now body.now).run (params_from 0 params.now) (length params.now)).next ≤ 2 ^ 64) }
{
    let (scope, next) = both(scope(alloc, params), count(params.len()))?;
    let mut emitter = Emitter::new(alloc, defs, scope, next);
    let given = emitter.expr(body)?;
    few(emitter.next);
    let Emitter { code, .. } = emitter;
    with_code(code, Ok(given))
}

/// The type of what a function gives, where it gives something.
fn result(alloc: Global, answer: &Ty) -> Result<Option<CType>, NoMemory>
    ensures { IfOk result (λ r. r ≡ (if is_unit answer.now then None else Some (ctype answer.now))) }
{
    if is_unit(answer) {
        return Ok(None);
    }
    Ok(Some(ctype(alloc, answer)?))
}

/// What a function gives, where it gives something.
fn answer(ty: &Ty, value: Box<CExpr>) -> Option<CExpr>
    ensures { result ≡ (if is_unit ty.now then None else Some value) }
{
    if is_unit(ty) {
        None
    } else {
        Some(value.into_inner())
    }
}

/// A function.
fn function<'a>(
    alloc: Global,
    defs: &Names<'a>,
    x: &Name,
    params: &'a [Field],
    ty: &Ty,
    body: &'a Expr,
) -> Result<CFun, NoMemory>
    ensures value { IfOk result (λ r. r ≡ fun_code defs.now x.now params.now ty.now body.now) }
    ensures few { IfOk result (λ r. ((code_of defs.now body.now).run (params_from 0 params.now) (length params.now)).next ≤ 2 ^ 64) }
{
    let body = emitted(alloc, defs, params, body);
    let (name, params) = both(x.copy(alloc), variables(alloc, params))?;
    let (result, body) = both(result(alloc, ty), body)?;
    Ok(CFun {
        result,
        name,
        params,
        body: body.code,
        answer: answer(ty, body.value),
    })
}

/// A struct.
fn structure(alloc: Global, name: &Name, fields: &[Field]) -> Result<CStruct, NoMemory>
    ensures { IfOk result (λ r. r ≡ record { name = name.now; fields = map field_code fields.now }) }
{
    let (name, fields) = both(name.copy(alloc), members(alloc, fields))?;
    Ok(CStruct { name, fields })
}

/// A table.
fn table(alloc: Global, name: &Name, ty: IntTy, nums: &[u64]) -> Result<CTable, NoMemory>
    ensures { IfOk result (λ r. r ≡ record { name = name.now; width = ty.width; nums = nums.now }) }
{
    let (name, nums) = both(name.copy(alloc), Seq::from_slice(alloc, nums))?;
    Ok(CTable {
        name,
        width: ty.width,
        nums,
    })
}

/// Adds what a definition becomes.
fn add<'a>(
    alloc: Global,
    defs: &Names<'a>,
    program: &mut CProgram,
    def: &'a Def,
) -> Result<(), NoMemory>
    ensures value { OnOk result (program.new ≡ with_def defs.now def.now program.old) }
    ensures few { OnOk result (variables_of defs.now def.now ≤ 2 ^ 64) }
{
    match def {
        Def::Struct { name, fields, .. } => {
            let structure = structure(alloc, name, fields.as_slice())?;
            program.structs.push(structure)
        }
        Def::Table { name, ty, nums } => {
            let table = table(alloc, name, *ty, nums.as_slice())?;
            program.tables.push(table)
        }
        Def::Fun {
            name,
            params,
            result,
            body,
            ..
        } => {
            let fun = function(alloc, defs, name, params.as_slice(), result, body)?;
            program.funs.push(fun)
        }
        Def::Entry { .. } => Ok(()),
        // not built yet
        Def::Sum { .. } => Ok(()),
    }
}

/// The program that a file becomes.
fn translated(alloc: Global, file: &SourceFile) -> Result<CProgram, NoMemory>
    ensures value { IfOk result (λ p. p ≡ program_of file.now) }
    ensures few { OnOk result (HaveFewVariables file.now.defs) }
{
    let defs = file.defs.as_slice();
    let names = Names::new(alloc, defs)?;
    let mut program = CProgram {
        structs: Seq::new(alloc),
        tables: Seq::new(alloc),
        funs: Seq::new(alloc),
    };
    for def in defs {
        add(alloc, &names, &mut program, def)?;
    }
    Ok(program)
}

/// The program in C that a file becomes, whose definitions are to be built. An error is want of memory.
pub fn to_cstar(alloc: Global, file: &BundledFile) -> Result<CProgram, NoMemory>
    requires built { AreBuilt file.now.0.defs }
    ensures value { IfOk result (λ p. p ≡ program_of file.now.0) }
    // No function has more variables than names tell apart.
    ensures few { OnOk result (HaveFewVariables file.now.0.defs) }
    // By the form that the file keeps, the program is well formed, and on arguments that fit, under any bound, it does what the
    // file does where that is not stuck.
    ensures well_formed { IfOk result (λ p. IsBundled file.now.0 file.now.1 → WellFormed p) }
    ensures runs { IfOk result (λ p. IsBundled file.now.0 file.now.1 → DoesTheSame file.now.0 p) }
{
    let program = translated(alloc, file.file())?;
    Ok(program)
}
