//! The definition that a form spells.

ghost use Rattle.std.specs.Prelude.{◌≡◌};
ghost use Rattle.krml_trace.specs.Gives.{Gives};
ghost use Rattle.krml_reader.specs.Each.{each_of, below};
ghost use Rattle.krml_reader.specs.Words.{var_at, number_of_width};
ghost use Rattle.krml_reader.specs.Definition.{vars_of, vars_at, field_by, field_at, fields_of, fields_at, con_by, con_at, cons_of, struct_of, sum_of, table_of, fun_of, entry_of, def_by, def_at};

use crate::expression::expr_at;
use crate::keyword::{Keyword, keyword_at};
use crate::name::name_at;
use crate::room::room_for;
use crate::types::{ty_at, tys_of};
use crate::words::{int_at, number_of_width, var_at};
use krml_forms::Form;
use krml_syntax::{Con, Def, Field};
use krml_trace::{Missing, Name, Seq, Width, both};
use std::alloc::Global;

/// How many levels a list in a definition may have.
const MAX_INNER_LEVELS: u32 = 63;

#[tactic(auto, unfolding(crate::specs::Each::each_after))]
fn vars_of(alloc: Global, forms: &[Form]) -> Result<Seq<Name>, Missing>
    ensures { Gives result (vars_of forms.now) }
{
    let mut vars = room_for(alloc, forms)?;
    for form in forms {
        vars.push(var_at(alloc, form)?)?;
    }
    Ok(vars)
}

/// `('a..)`, type variables.
fn vars_at(alloc: Global, form: &Form) -> Result<Seq<Name>, Missing>
    ensures { Gives result (vars_at form.now) }
{
    match form {
        Form::Atom(_) => Err(Missing::Absent),
        Form::List(forms) => vars_of(alloc, forms.as_slice()),
    }
}

fn field_by(alloc: Global, levels: u32, forms: &[Form]) -> Result<Field, Missing>
    ensures { Gives result (field_by levels forms.now) }
{
    let [name, ty] = forms else {
        return Err(Missing::Absent);
    };
    let (name, ty) = both(name_at(alloc, name), ty_at(alloc, levels, ty))?;
    Ok(Field { name, ty })
}

fn field_below(alloc: Global, levels: u32, forms: &[Form]) -> Result<Field, Missing>
    ensures { Gives result (below field_by levels forms.now) }
{
    if levels == 0 {
        return Err(Missing::Absent);
    }
    field_by(alloc, levels - 1, forms)
}

/// `(NAME T)`, a field or a parameter.
fn field_at(alloc: Global, levels: u32, form: &Form) -> Result<Field, Missing>
    ensures { Gives result (field_at levels form.now) }
{
    match form {
        Form::Atom(_) => Err(Missing::Absent),
        Form::List(forms) => field_below(alloc, levels, forms.as_slice()),
    }
}

#[tactic(auto, unfolding(crate::specs::Each::each_after))]
fn fields_of(alloc: Global, levels: u32, forms: &[Form]) -> Result<Seq<Field>, Missing>
    ensures { Gives result (fields_of levels forms.now) }
{
    let mut fields = room_for(alloc, forms)?;
    for form in forms {
        fields.push(field_at(alloc, levels, form)?)?;
    }
    Ok(fields)
}

fn fields_below(alloc: Global, levels: u32, forms: &[Form]) -> Result<Seq<Field>, Missing>
    ensures { Gives result (below fields_of levels forms.now) }
{
    if levels == 0 {
        return Err(Missing::Absent);
    }
    fields_of(alloc, levels - 1, forms)
}

/// `((PARAM T)..)`.
fn fields_at(alloc: Global, levels: u32, form: &Form) -> Result<Seq<Field>, Missing>
    ensures { Gives result (fields_at levels form.now) }
{
    match form {
        Form::Atom(_) => Err(Missing::Absent),
        Form::List(forms) => fields_below(alloc, levels, forms.as_slice()),
    }
}

fn con_by(alloc: Global, levels: u32, forms: &[Form]) -> Result<Con, Missing>
    ensures { Gives result (con_by levels forms.now) }
{
    let [name, args @ ..] = forms else {
        return Err(Missing::Absent);
    };
    let (name, args) = both(name_at(alloc, name), tys_of(alloc, levels, args))?;
    Ok(Con { name, args })
}

fn con_below(alloc: Global, levels: u32, forms: &[Form]) -> Result<Con, Missing>
    ensures { Gives result (below con_by levels forms.now) }
{
    if levels == 0 {
        return Err(Missing::Absent);
    }
    con_by(alloc, levels - 1, forms)
}

/// `(CON T..)`.
fn con_at(alloc: Global, levels: u32, form: &Form) -> Result<Con, Missing>
    ensures { Gives result (con_at levels form.now) }
{
    match form {
        Form::Atom(_) => Err(Missing::Absent),
        Form::List(forms) => con_below(alloc, levels, forms.as_slice()),
    }
}

#[tactic(auto, unfolding(crate::specs::Each::each_after))]
fn cons_of(alloc: Global, levels: u32, forms: &[Form]) -> Result<Seq<Con>, Missing>
    ensures { Gives result (cons_of levels forms.now) }
{
    let mut cons = room_for(alloc, forms)?;
    for form in forms {
        cons.push(con_at(alloc, levels, form)?)?;
    }
    Ok(cons)
}

/// Numbers of a width.
#[tactic(auto, unfolding(crate::specs::Each::each_after))]
fn numbers_of(alloc: Global, width: Width, forms: &[Form]) -> Result<Seq<u64>, Missing>
    ensures { Gives result (each_of (number_of_width width) forms.now) }
{
    let mut numbers = room_for(alloc, forms)?;
    for form in forms {
        let Some(number) = number_of_width(width, form) else {
            return Err(Missing::Absent);
        };
        numbers.push(number)?;
    }
    Ok(numbers)
}

/// `(struct NAME ('a..) (FIELD T)..)`, behind its keyword.
fn structure(alloc: Global, rest: &[Form]) -> Result<Def, Missing>
    ensures { Gives result (struct_of rest.now) }
{
    let [name, vars, fields @ ..] = rest else {
        return Err(Missing::Absent);
    };
    if fields.is_empty() {
        return Err(Missing::Absent);
    }
    let head = both(name_at(alloc, name), vars_at(alloc, vars));
    let fields = fields_of(alloc, MAX_INNER_LEVELS, fields);
    let ((name, vars), fields) = both(head, fields)?;
    Ok(Def::Struct { name, vars, fields })
}

/// `(sum NAME ('a..) (CON T..)..)`, behind its keyword.
fn sum(alloc: Global, rest: &[Form]) -> Result<Def, Missing>
    ensures { Gives result (sum_of rest.now) }
{
    let [name, vars, cons @ ..] = rest else {
        return Err(Missing::Absent);
    };
    if cons.is_empty() {
        return Err(Missing::Absent);
    }
    let head = both(name_at(alloc, name), vars_at(alloc, vars));
    let cons = cons_of(alloc, MAX_INNER_LEVELS, cons);
    let ((name, vars), cons) = both(head, cons)?;
    Ok(Def::Sum { name, vars, cons })
}

/// `(table NAME I N..)`, behind its keyword.
fn table(alloc: Global, rest: &[Form]) -> Result<Def, Missing>
    ensures { Gives result (table_of rest.now) }
{
    let [name, ty, nums @ ..] = rest else {
        return Err(Missing::Absent);
    };
    if nums.is_empty() {
        return Err(Missing::Absent);
    }
    let name = name_at(alloc, name)?;
    let Some(ty) = int_at(ty) else {
        return Err(Missing::Absent);
    };
    let nums = numbers_of(alloc, ty.width, nums)?;
    Ok(Def::Table { name, ty, nums })
}

/// `(fun NAME ('a..) ((PARAM T)..) T EXPR)`, behind its keyword.
fn fun(alloc: Global, rest: &[Form]) -> Result<Def, Missing>
    ensures { Gives result (fun_of rest.now) }
{
    let [name, vars, params, result, body] = rest else {
        return Err(Missing::Absent);
    };
    let name = name_at(alloc, name)?;
    let vars = vars_at(alloc, vars)?;
    let params = fields_at(alloc, MAX_INNER_LEVELS, params)?;
    let result = ty_at(alloc, MAX_INNER_LEVELS, result)?;
    let body = expr_at(alloc, MAX_INNER_LEVELS, body)?;
    Ok(Def::Fun {
        name,
        vars,
        params,
        result,
        body,
    })
}

/// `(entry NAME)`, behind its keyword.
fn entry(alloc: Global, rest: &[Form]) -> Result<Def, Missing>
    ensures { Gives result (entry_of rest.now) }
{
    let [name] = rest else {
        return Err(Missing::Absent);
    };
    let name = name_at(alloc, name)?;
    Ok(Def::Entry { name })
}

fn def_by(alloc: Global, forms: &[Form]) -> Result<Def, Missing>
    ensures { Gives result (def_by forms.now) }
{
    let [head, rest @ ..] = forms else {
        return Err(Missing::Absent);
    };
    match keyword_at(head) {
        Some(Keyword::Struct) => structure(alloc, rest),
        Some(Keyword::Sum) => sum(alloc, rest),
        Some(Keyword::Table) => table(alloc, rest),
        Some(Keyword::Fun) => fun(alloc, rest),
        Some(Keyword::Entry) => entry(alloc, rest),
        _ => Err(Missing::Absent),
    }
}

/// The definition that a form of 64 levels at most spells.
pub fn def_at(alloc: Global, form: &Form) -> Result<Def, Missing>
    ensures { Gives result (def_at form.now) }
{
    match form {
        Form::Atom(_) => Err(Missing::Absent),
        Form::List(forms) => def_by(alloc, forms.as_slice()),
    }
}
