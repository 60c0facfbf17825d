//! The form of a definition.

ghost use Rattle.std.specs.Prelude.{◌≡◌, ◌∷◌, IfOk, IsOkAnd, map};
ghost use Rattle.krml_writer.specs.Written.{form_of_var, form_of_number, form_of_field, form_of_con, form_of_def};

use crate::expression::form_of_expr;
use crate::part::{Part, list, list_with, number, unary, variable, word};
use crate::types::{form_of_ty, forms_of_tys};
use krml_forms::Form;
use krml_syntax::{Con, Def, Expr, Field, IntTy, Ty, int_word};
use krml_trace::{Name, NoMemory, Seq};
use std::alloc::Global;

/// The forms of type variables, in order.
fn forms_of_vars(alloc: Global, vars: &[Name]) -> Result<Seq<Form>, NoMemory>
    ensures { IfOk result (λ forms. forms ≡ map form_of_var vars.now) }
{
    let mut forms = Seq::new(alloc);
    for var in vars {
        forms.push(variable(alloc, var)?)?;
    }
    Ok(forms)
}

/// The forms of numbers, in order.
fn forms_of_numbers(alloc: Global, nums: &[u64]) -> Result<Seq<Form>, NoMemory>
    ensures { IfOk result (λ forms. forms ≡ map form_of_number nums.now) }
{
    let mut forms = Seq::new(alloc);
    for num in nums {
        forms.push(number(alloc, *num)?)?;
    }
    Ok(forms)
}

/// The form of a field or a parameter.
fn form_of_field(alloc: Global, field: &Field) -> Part
    ensures { IfOk result (λ form. form ≡ form_of_field field.now) }
{
    let ty = form_of_ty(alloc, &field.ty);
    unary(alloc, field.name.as_bytes(), ty)
}

/// The forms of fields or parameters, in order.
fn forms_of_fields(alloc: Global, fields: &[Field]) -> Result<Seq<Form>, NoMemory>
    ensures { IfOk result (λ forms. forms ≡ map form_of_field fields.now) }
{
    let mut forms = Seq::new(alloc);
    for field in fields {
        forms.push(form_of_field(alloc, field)?)?;
    }
    Ok(forms)
}

/// The form of a constructor.
fn form_of_con(alloc: Global, con: &Con) -> Part
    ensures { IfOk result (λ form. form ≡ form_of_con con.now) }
{
    let args = forms_of_tys(alloc, con.args.as_slice());
    list_with(alloc, [word(alloc, con.name.as_bytes())], args)
}

/// The forms of constructors, in order.
fn forms_of_cons(alloc: Global, cons: &[Con]) -> Result<Seq<Form>, NoMemory>
    ensures { IfOk result (λ forms. forms ≡ map form_of_con cons.now) }
{
    let mut forms = Seq::new(alloc);
    for con in cons {
        forms.push(form_of_con(alloc, con)?)?;
    }
    Ok(forms)
}

/// Type variables between parentheses.
fn list_of_vars(alloc: Global, vars: &[Name]) -> Part
    ensures { IfOk result (λ form. form ≡ Form.List (map form_of_var vars.now)) }
{
    Ok(Form::List(forms_of_vars(alloc, vars)?))
}

/// `(struct NAME ('a..) (FIELD T)..)`, and the same of a sum and its constructors.
fn composite(
    alloc: Global,
    keyword: &[u8],
    name: &Name,
    vars: &[Name],
    members: Result<Seq<Form>, NoMemory>,
) -> Part
    ensures { IfOk result (λ form. IsOkAnd members (λ members. form ≡ Form.List (Form.Atom keyword.now ∷ Form.Atom name.now ∷ Form.List (map form_of_var vars.now) ∷ members))) }
{
    let vars = list_of_vars(alloc, vars);
    list_with(
        alloc,
        [word(alloc, keyword), word(alloc, name.as_bytes()), vars],
        members,
    )
}

/// `(table NAME I N..)`.
fn table(alloc: Global, name: &Name, int: IntTy, nums: &[u64]) -> Part
    ensures { IfOk result (λ form. form ≡ form_of_def (Def.Table name.now int nums.now)) }
{
    let name = word(alloc, name.as_bytes());
    let nums = forms_of_numbers(alloc, nums);
    list_with(
        alloc,
        [word(alloc, b"table"), name, word(alloc, int_word(int))],
        nums,
    )
}

/// `((PARAM T)..)`.
fn list_of_params(alloc: Global, params: &[Field]) -> Part
    ensures { IfOk result (λ form. form ≡ Form.List (map form_of_field params.now)) }
{
    Ok(Form::List(forms_of_fields(alloc, params)?))
}

/// `(fun NAME ('a..) ((PARAM T)..) T EXPR)`.
fn fun(
    alloc: Global,
    name: &Name,
    vars: &[Name],
    params: &[Field],
    result_ty: &Ty,
    body: &Expr,
) -> Part
    ensures { IfOk result (λ form. form ≡ form_of_def (Def.Fun name.now vars.now params.now result_ty.now body.now)) }
{
    let name = word(alloc, name.as_bytes());
    let vars = list_of_vars(alloc, vars);
    let params = list_of_params(alloc, params);
    let result_ty = form_of_ty(alloc, result_ty);
    let body = form_of_expr(alloc, body);
    let parts = [word(alloc, b"fun"), name, vars, params, result_ty, body];
    list(alloc, parts)
}

/// The form of a definition.
fn form_of_def(alloc: Global, def: &Def) -> Part
    ensures { IfOk result (λ form. form ≡ form_of_def def.now) }
{
    match def {
        Def::Struct { name, vars, fields } => {
            let fields = forms_of_fields(alloc, fields.as_slice());
            composite(alloc, b"struct", name, vars.as_slice(), fields)
        }
        Def::Sum { name, vars, cons } => {
            let cons = forms_of_cons(alloc, cons.as_slice());
            composite(alloc, b"sum", name, vars.as_slice(), cons)
        }
        Def::Table { name, ty, nums } => table(alloc, name, *ty, nums.as_slice()),
        Def::Fun {
            name,
            vars,
            params,
            result,
            body,
        } => fun(
            alloc,
            name,
            vars.as_slice(),
            params.as_slice(),
            result,
            body,
        ),
        Def::Entry { name } => unary(alloc, b"entry", word(alloc, name.as_bytes())),
    }
}

/// The forms of definitions, in order.
pub fn forms_of_defs(alloc: Global, defs: &[Def]) -> Result<Seq<Form>, NoMemory>
    ensures { IfOk result (λ forms. forms ≡ map form_of_def defs.now) }
{
    let mut forms = Seq::new(alloc);
    for def in defs {
        forms.push(form_of_def(alloc, def)?)?;
    }
    Ok(forms)
}
