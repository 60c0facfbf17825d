//! Which definitions are well typed, each behind the definitions before it.

ghost use Rattle.std.specs.Prelude.{◌≡◌, true, take, IfOk, OnOk};
ghost use Rattle.krml_syntax.specs.declared.tree.Ty.{out-Ty};
ghost use Rattle.krml_ast.specs.Names.{fun_named};
ghost use Rattle.krml_intern.specs.Table.{Grows};
ghost use Rattle.krml_types.specs.Expressions.{is_result as is_result_ty};
ghost use Rattle.krml_trace.specs.Gives.{Gives};
ghost use Rattle.krml_types.specs.Parts.{demand};
ghost use Rattle.krml_types.specs.Definitions.{ParamsGo};
ghost use Rattle.krml_types.specs.Definitions.{are_fields, are_cons, all_fit, is_body, is_head, is_int_in, is_outside_in, are_outside, is_answer_in, is_entry, fun_ok, well_typed};

use crate::demands::demand;
use crate::formed::{are_arguments_before, is_flat, is_type_before, is_unit, is_value};
use crate::index::Index;
use crate::judge::Judge;
use crate::names::{all_new, are_cons_distinct, are_distinct, are_fields_distinct, is_new};
use krml_ast::NameKind;
use krml_syntax::{Con, Def, Expr, Field, IntTy, Ty};
use krml_trace::{Missing, Name, NoMemory};
use std::alloc::AllocError;

fn are_fields(index: &Index<'_>, k: usize, tvars: &[Name], fields: &[Field]) -> bool
    ensures { result ≡ are_fields (take k index.now) index.now tvars.now fields.now }
{
    for field in fields {
        if !(is_type_before(index, k, tvars, &field.ty) && is_value(&field.ty)) {
            return false;
        }
    }
    true
}

fn are_cons(index: &Index<'_>, k: usize, tvars: &[Name], cons: &[Con]) -> bool
    ensures { result ≡ are_cons (take k index.now) index.now tvars.now cons.now }
{
    for con in cons {
        if !are_arguments_before(index, k, tvars, con.args.as_slice()) {
            return false;
        }
    }
    true
}

fn all_fit(i: IntTy, nums: &[u64]) -> bool
    ensures { result ≡ all_fit i nums.now }
{
    for n in nums {
        if !i.width.fits(*n) {
            return false;
        }
    }
    true
}

/// Whether a function may give values of a type.
fn is_result(index: &Index<'_>, a: &Ty) -> bool
    ensures { result ≡ is_result_ty index.now a.now }
{
    is_unit(a) || is_flat(index, a)
}

impl<'n, 'a> Judge<'n, 'a> {
    /// Puts the parameters into scope, the first one as the newest.
    fn params(&mut self, params: &'a [Field]) -> Result<(), Missing>
        ensures value { ParamsGo result params.now self.old.place self.new.place }
        ensures grows { OnOk result (Grows self.old.table self.new.table) }
    {
        let [param, rest @ ..] = params else {
            return Ok(());
        };
        self.params(rest)?;
        let k = self.erased(&param.ty)?;
        self.push(&param.name, k)?;
        Ok(())
    }

    /// A function's body has the type of its result.
    fn body(
        &mut self,
        tvars: &'a [Name],
        params: &'a [Field],
        gives: &'a Ty,
        body: &'a Expr,
    ) -> Result<(), Missing>
        ensures value { Gives result (demand (is_body self.old.place.defs tvars.now params.now gives.now body.now)) }
        ensures defs { OnOk result (self.new.place.defs ≡ self.old.place.defs) }
    {
        self.begin(tvars);
        self.params(params)?;
        let k = self.type_of(body)?;
        let j = self.erased(gives)?;
        demand(self.same(k, j))
    }

    fn is_body(
        &mut self,
        tvars: &'a [Name],
        params: &'a [Field],
        gives: &'a Ty,
        body: &'a Expr,
    ) -> Result<bool, NoMemory>
        ensures value { IfOk result (λ r. r ≡ is_body self.old.place.defs tvars.now params.now gives.now body.now) }
        ensures defs { IfOk result (λ r. r ≡ true → self.new.place.defs ≡ self.old.place.defs) }
    {
        match self.body(tvars, params, gives, body) {
            Ok(()) => Ok(true),
            Err(Missing::Absent) => Ok(false),
            Err(Missing::NoMemory) => Err(AllocError),
        }
    }

    fn is_fun(
        &mut self,
        tvars: &'a [Name],
        params: &'a [Field],
        gives: &'a Ty,
        body: &'a Expr,
    ) -> Result<bool, NoMemory>
        ensures value { IfOk result (λ r. r ≡ fun_ok self.old.place.defs tvars.now params.now gives.now body.now) }
        ensures defs { IfOk result (λ r. r ≡ true → self.new.place.defs ≡ self.old.place.defs) }
    {
        if !is_head(self.index(), tvars, params, gives) {
            return Ok(false);
        }
        self.is_body(tvars, params, gives, body)
    }
}

/// Whether type variables, parameters and result of a function are well formed.
fn is_head(index: &Index<'_>, tvars: &[Name], params: &[Field], gives: &Ty) -> bool
    ensures { result ≡ is_head index.now tvars.now params.now gives.now }
{
    are_distinct(tvars)
        && are_fields_distinct(params)
        && are_fields(index, index.len(), tvars, params)
        && is_type_before(index, index.len(), tvars, gives)
        && is_result(index, gives)
}

fn is_int(a: &Ty) -> bool
    ensures { result ≡ is_int_in (out-Ty a.now) }
{
    matches!(a, Ty::Int(_))
}

/// Whether a caller from outside can give arguments of a type.
fn is_outside(a: &Ty) -> bool
    ensures { result ≡ is_outside_in (out-Ty a.now) }
{
    match a {
        Ty::Bool => true,
        Ty::Int(_) => true,
        Ty::Buf(b) => is_int(b.get()),
        _ => false,
    }
}

fn are_outside(params: &[Field]) -> bool
    ensures { result ≡ are_outside params.now }
{
    for param in params {
        if !is_outside(&param.ty) {
            return false;
        }
    }
    true
}

/// Whether a caller from outside can take results of a type.
fn is_answer(a: &Ty) -> bool
    ensures { result ≡ is_answer_in (out-Ty a.now) }
{
    match a {
        Ty::Unit => true,
        Ty::Bool => true,
        Ty::Int(_) => true,
        _ => false,
    }
}

/// Whether a function that can be called from outside has the name.
fn is_entry(index: &Index<'_>, x: &Name) -> bool
    ensures { result ≡ is_entry (fun_named index.now x.now) }
{
    match index.names().fun_named(x) {
        Some(f) => f.vars.is_empty() && are_outside(f.params) && is_answer(f.result),
        None => false,
    }
}

impl<'n, 'a> Judge<'n, 'a> {
    /// Whether a definition at a place is well typed behind those before it.
    pub fn is_well_typed(&mut self, k: usize, def: &'a Def) -> Result<bool, NoMemory>
        ensures value { IfOk result (λ r. r ≡ well_typed self.old.place.defs (take k self.old.place.defs) def.now) }
        ensures defs { IfOk result (λ r. r ≡ true → self.new.place.defs ≡ self.old.place.defs) }
    {
        let index = self.index();
        match def {
            Def::Struct { name, vars, fields } => Ok(
                is_new(index, NameKind::Type, k, name)
                    && are_distinct(vars.as_slice())
                    && are_fields_distinct(fields.as_slice())
                    && are_fields(index, k, vars.as_slice(), fields.as_slice()),
            ),
            Def::Sum { name, vars, cons } => Ok(
                is_new(index, NameKind::Type, k, name)
                    && (are_cons_distinct(cons.as_slice()) && all_new(index, k, cons.as_slice()))
                    && are_distinct(vars.as_slice())
                    && are_cons(index, k, vars.as_slice(), cons.as_slice()),
            ),
            Def::Table { name, ty, nums } => {
                Ok(is_new(index, NameKind::Table, k, name) && all_fit(*ty, nums.as_slice()))
            }
            Def::Fun {
                name,
                vars,
                params,
                result,
                body,
            } => {
                if is_new(index, NameKind::Fun, k, name) {
                    self.is_fun(vars.as_slice(), params.as_slice(), result, body)
                } else {
                    Ok(false)
                }
            }
            Def::Entry { name } => {
                Ok(is_new(index, NameKind::Entry, k, name) && is_entry(index, name))
            }
        }
    }
}
