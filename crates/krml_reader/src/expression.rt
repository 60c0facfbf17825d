//! The expression that a form spells.

ghost use Rattle.std.specs.Prelude.{◌≡◌, option_map};
ghost use Rattle.krml_trace.specs.Gives.{Gives};
ghost use Rattle.krml_reader.specs.Each.{each_of};
ghost use Rattle.krml_reader.specs.Expression.{variable_of, word_by, one_by, two_by, three_by, typed_by, operands_by, named_by, applied_by, num_of, cast_by, alloc_by, for_by, match_by, split_last, do_by, is_let, expr_at, list_at, arm_at, arm_list_at, arm_by, item_at, let_at, operation_at, access_at, control_at};

use crate::keyword::{Keyword, keyword_at};
use crate::name::{name_at, name_of};
use crate::pattern::pat_at;
use crate::room::room_for;
use crate::types::{ty_at, tys_at};
use crate::words::{int_at, length_at, number_of_width};
use krml_forms::Form;
use krml_syntax::{Arm, Expr, IntTy, Item, Ty};
use krml_trace::{Box, Missing, Name, Seq, both};
use std::alloc::Global;

fn variable(alloc: Global, word: &[u8]) -> Result<Expr, Missing>
    ensures { Gives result (variable_of word.now) }
{
    let name = name_of(alloc, word)?;
    Ok(Expr::Var(name))
}

/// A word, and the keyword that it is.
fn word(alloc: Global, keyword: Option<Keyword>, word: &[u8]) -> Result<Expr, Missing>
    ensures { Gives result (word_by keyword word.now) }
{
    match keyword {
        Some(Keyword::Unit) => Ok(Expr::Unit),
        Some(Keyword::Truth(b)) => Ok(Expr::Bool(b)),
        _ => variable(alloc, word),
    }
}

/// `(I N)`, behind its type.
fn num(ty: IntTy, rest: &[Form]) -> Result<Expr, Missing>
    ensures { Gives result (num_of ty rest.now) }
{
    let [number] = rest else {
        return Err(Missing::Absent);
    };
    match number_of_width(ty.width, number) {
        Some(value) => Ok(Expr::Num(ty, value)),
        None => Err(Missing::Absent),
    }
}

/// The expression that a form spells, where it may have so many levels.
#[cycle(expression)]
pub fn expr_at(alloc: Global, levels: u32, form: &Form) -> Result<Expr, Missing>
    ensures { Gives result (expr_at levels form.now) }
{
    match form {
        Form::Atom(text) => word(alloc, keyword_at(form), text.as_slice()),
        Form::List(forms) => list_at(alloc, levels, forms.as_slice()),
    }
}

#[cycle(expression)]
fn boxed_at(alloc: Global, levels: u32, form: &Form) -> Result<Box<Expr>, Missing>
    ensures { Gives result (expr_at levels form.now) }
{
    let expr = expr_at(alloc, levels, form)?;
    Ok(Box::new(alloc, expr)?)
}

/// What a list spells.
#[tactic(auto, unfolding(crate::specs::Expression::list_at))]
#[cycle(expression)]
fn list_at(alloc: Global, levels: u32, forms: &[Form]) -> Result<Expr, Missing>
    ensures { Gives result (list_at levels forms.now) }
{
    if levels == 0 {
        return Err(Missing::Absent);
    }
    let levels = levels - 1;
    let [head, rest @ ..] = forms else {
        return Err(Missing::Absent);
    };
    match keyword_at(head) {
        Some(keyword) => operation(alloc, levels, keyword, rest),
        None => Err(Missing::Absent),
    }
}

/// What stands behind a keyword, where it works on integers or truth values.
#[tactic(auto, unfolding(crate::specs::Expression::operation_by))]
#[cycle(expression)]
fn operation(alloc: Global, levels: u32, keyword: Keyword, rest: &[Form]) -> Result<Expr, Missing>
    ensures { Gives result (operation_at levels keyword rest.now) }
{
    match keyword {
        Keyword::Int(ty) => num(ty, rest),
        Keyword::Bin(op) => {
            let (ty, a, b) = operands(alloc, levels, rest)?;
            Ok(Expr::Bin(op, ty, a, b))
        }
        Keyword::Shift(left) => {
            let (ty, a, n) = operands(alloc, levels, rest)?;
            Ok(Expr::Shift(left, ty, a, n))
        }
        Keyword::Cmp(op) => {
            let (ty, a, b) = operands(alloc, levels, rest)?;
            Ok(Expr::Cmp(op, ty, a, b))
        }
        Keyword::Not => Ok(Expr::Not(one(alloc, levels, rest)?)),
        Keyword::Cast => cast(alloc, levels, rest),
        Keyword::Hide => {
            let (ty, a) = typed(alloc, levels, rest)?;
            Ok(Expr::Hide(ty, a))
        }
        _ => access(alloc, levels, keyword, rest),
    }
}

/// What stands behind a keyword, where it makes a value, takes one apart, or works on a buffer.
#[tactic(auto, unfolding(crate::specs::Expression::access_by))]
#[cycle(expression)]
fn access(alloc: Global, levels: u32, keyword: Keyword, rest: &[Form]) -> Result<Expr, Missing>
    ensures { Gives result (access_at levels keyword rest.now) }
{
    match keyword {
        Keyword::Make => {
            let (name, tys, fields) = applied(alloc, levels, rest)?;
            Ok(Expr::Make(name, tys, fields))
        }
        Keyword::Get => {
            let (field, a) = named(alloc, levels, rest)?;
            Ok(Expr::Get(field, a))
        }
        Keyword::Con => {
            let (name, tys, args) = applied(alloc, levels, rest)?;
            Ok(Expr::Con(name, tys, args))
        }
        Keyword::Read => {
            let (buffer, at) = two(alloc, levels, rest)?;
            Ok(Expr::Read(buffer, at))
        }
        Keyword::Write => {
            let (buffer, at, value) = three(alloc, levels, rest)?;
            Ok(Expr::Write(buffer, at, value))
        }
        Keyword::Slice => {
            let (buffer, from, len) = three(alloc, levels, rest)?;
            Ok(Expr::Slice(buffer, from, len))
        }
        Keyword::Tab => {
            let (table, at) = named(alloc, levels, rest)?;
            Ok(Expr::Tab(table, at))
        }
        Keyword::Alloc => buffer(alloc, levels, rest),
        _ => control(alloc, levels, keyword, rest),
    }
}

/// What stands behind a keyword, where it says what runs.
#[tactic(auto, unfolding(crate::specs::Expression::control_by))]
#[cycle(expression)]
fn control(alloc: Global, levels: u32, keyword: Keyword, rest: &[Form]) -> Result<Expr, Missing>
    ensures { Gives result (control_at levels keyword rest.now) }
{
    match keyword {
        Keyword::If => {
            let (test, a, b) = three(alloc, levels, rest)?;
            Ok(Expr::If(test, a, b))
        }
        Keyword::Match => branches(alloc, levels, rest),
        Keyword::Do => sequence(alloc, levels, rest),
        Keyword::Frame => {
            let body = one(alloc, levels, rest)?;
            Ok(Expr::Frame(Seq::new(alloc), body))
        }
        Keyword::While => {
            let (test, body) = two(alloc, levels, rest)?;
            Ok(Expr::While(test, body))
        }
        Keyword::For => count(alloc, levels, rest),
        Keyword::Call => {
            let (name, tys, args) = applied(alloc, levels, rest)?;
            Ok(Expr::Call(name, tys, args))
        }
        _ => Err(Missing::Absent),
    }
}

/// An expression.
#[cycle(expression)]
fn one(alloc: Global, levels: u32, rest: &[Form]) -> Result<Box<Expr>, Missing>
    ensures { Gives result (one_by (expr_at levels) rest.now) }
{
    let [a] = rest else {
        return Err(Missing::Absent);
    };
    boxed_at(alloc, levels, a)
}

/// Two expressions.
#[cycle(expression)]
fn two(alloc: Global, levels: u32, rest: &[Form]) -> Result<(Box<Expr>, Box<Expr>), Missing>
    ensures { Gives result (two_by (expr_at levels) rest.now) }
{
    let [a, b] = rest else {
        return Err(Missing::Absent);
    };
    both(boxed_at(alloc, levels, a), boxed_at(alloc, levels, b))
}

/// Three expressions.
#[cycle(expression)]
fn three(
    alloc: Global,
    levels: u32,
    rest: &[Form],
) -> Result<(Box<Expr>, Box<Expr>, Box<Expr>), Missing>
    ensures { Gives result (three_by (expr_at levels) rest.now) }
{
    let [a, b, c] = rest else {
        return Err(Missing::Absent);
    };
    let first = both(boxed_at(alloc, levels, a), boxed_at(alloc, levels, b));
    let ((a, b), c) = both(first, boxed_at(alloc, levels, c))?;
    Ok((a, b, c))
}

/// An integer type and an expression.
#[cycle(expression)]
fn typed(alloc: Global, levels: u32, rest: &[Form]) -> Result<(IntTy, Box<Expr>), Missing>
    ensures { Gives result (typed_by (expr_at levels) rest.now) }
{
    let [ty, a] = rest else {
        return Err(Missing::Absent);
    };
    let Some(ty) = int_at(ty) else {
        return Err(Missing::Absent);
    };
    let a = boxed_at(alloc, levels, a)?;
    Ok((ty, a))
}

/// An integer type and two operands.
#[cycle(expression)]
fn operands(
    alloc: Global,
    levels: u32,
    rest: &[Form],
) -> Result<(IntTy, Box<Expr>, Box<Expr>), Missing>
    ensures { Gives result (operands_by (expr_at levels) rest.now) }
{
    let [ty, a, b] = rest else {
        return Err(Missing::Absent);
    };
    let Some(ty) = int_at(ty) else {
        return Err(Missing::Absent);
    };
    let (a, b) = both(boxed_at(alloc, levels, a), boxed_at(alloc, levels, b))?;
    Ok((ty, a, b))
}

/// A name and an expression.
#[cycle(expression)]
fn named(alloc: Global, levels: u32, rest: &[Form]) -> Result<(Name, Box<Expr>), Missing>
    ensures { Gives result (named_by (expr_at levels) rest.now) }
{
    let [name, a] = rest else {
        return Err(Missing::Absent);
    };
    both(name_at(alloc, name), boxed_at(alloc, levels, a))
}

/// A name, types between parentheses, and expressions.
#[cycle(expression)]
fn applied(alloc: Global, levels: u32, rest: &[Form]) -> Result<(Name, Seq<Ty>, Seq<Expr>), Missing>
    ensures { Gives result (applied_by levels (expr_at levels) rest.now) }
{
    let [name, tys, exprs @ ..] = rest else {
        return Err(Missing::Absent);
    };
    let head = both(name_at(alloc, name), tys_at(alloc, levels, tys));
    let ((name, tys), exprs) = both(head, exprs_of(alloc, levels, exprs))?;
    Ok((name, tys, exprs))
}

#[tactic(auto, unfolding(crate::specs::Each::each_after))]
#[cycle(expression)]
fn exprs_of(alloc: Global, levels: u32, forms: &[Form]) -> Result<Seq<Expr>, Missing>
    ensures { Gives result (each_of (expr_at levels) forms.now) }
{
    let mut exprs = room_for(alloc, forms)?;
    for form in forms {
        exprs.push(expr_at(alloc, levels, form)?)?;
    }
    Ok(exprs)
}

/// `(cast I J e)`, behind its keyword.
#[cycle(expression)]
fn cast(alloc: Global, levels: u32, rest: &[Form]) -> Result<Expr, Missing>
    ensures { Gives result (cast_by (expr_at levels) rest.now) }
{
    let [from, to, a] = rest else {
        return Err(Missing::Absent);
    };
    let Some(from) = int_at(from) else {
        return Err(Missing::Absent);
    };
    let Some(to) = int_at(to) else {
        return Err(Missing::Absent);
    };
    let a = boxed_at(alloc, levels, a)?;
    Ok(Expr::Cast(from, to, a))
}

/// `(alloc T n e)`, behind its keyword.
#[cycle(expression)]
fn buffer(alloc: Global, levels: u32, rest: &[Form]) -> Result<Expr, Missing>
    ensures { Gives result (alloc_by levels (expr_at levels) rest.now) }
{
    let [ty, len, first] = rest else {
        return Err(Missing::Absent);
    };
    let len = length_at(len).ok_or(Missing::Absent);
    let elements = both(ty_at(alloc, levels, ty), len);
    let ((ty, len), first) = both(elements, boxed_at(alloc, levels, first))?;
    Ok(Expr::Alloc(ty, len, first))
}

/// `(for x a b e)`, behind its keyword.
#[cycle(expression)]
fn count(alloc: Global, levels: u32, rest: &[Form]) -> Result<Expr, Missing>
    ensures { Gives result (for_by (expr_at levels) rest.now) }
{
    let [name, first, end, body] = rest else {
        return Err(Missing::Absent);
    };
    let from = both(name_at(alloc, name), boxed_at(alloc, levels, first));
    let rest = both(boxed_at(alloc, levels, end), boxed_at(alloc, levels, body));
    let ((name, first), (end, body)) = both(from, rest)?;
    Ok(Expr::For(name, first, end, body))
}

/// `(match e (P a)..)`, behind its keyword.
#[cycle(expression)]
fn branches(alloc: Global, levels: u32, rest: &[Form]) -> Result<Expr, Missing>
    ensures { Gives result (match_by (expr_at levels) (arm_at levels) rest.now) }
{
    let [value, arms @ ..] = rest else {
        return Err(Missing::Absent);
    };
    let value = boxed_at(alloc, levels, value)?;
    if arms.is_empty() {
        return Err(Missing::Absent);
    }
    let arms = arms_of(alloc, levels, arms)?;
    Ok(Expr::Match(value, arms))
}

#[tactic(auto, unfolding(crate::specs::Each::each_after))]
#[cycle(expression)]
fn arms_of(alloc: Global, levels: u32, forms: &[Form]) -> Result<Seq<Arm>, Missing>
    ensures { Gives result (each_of (arm_at levels) forms.now) }
{
    let mut arms = room_for(alloc, forms)?;
    for form in forms {
        arms.push(arm_at(alloc, levels, form)?)?;
    }
    Ok(arms)
}

#[cycle(expression)]
fn arm_at(alloc: Global, levels: u32, form: &Form) -> Result<Arm, Missing>
    ensures { Gives result (arm_at levels form.now) }
{
    match form {
        Form::Atom(_) => Err(Missing::Absent),
        Form::List(forms) => arm_list_at(alloc, levels, forms.as_slice()),
    }
}

#[tactic(auto, unfolding(crate::specs::Expression::arm_list_at))]
#[cycle(expression)]
fn arm_list_at(alloc: Global, levels: u32, forms: &[Form]) -> Result<Arm, Missing>
    ensures { Gives result (arm_list_at levels forms.now) }
{
    if levels == 0 {
        return Err(Missing::Absent);
    }
    arm(alloc, levels - 1, forms)
}

/// `(P a)`, a branch of a `match`.
#[cycle(expression)]
fn arm(alloc: Global, levels: u32, forms: &[Form]) -> Result<Arm, Missing>
    ensures { Gives result (arm_by levels (expr_at levels) forms.now) }
{
    let [pat, body] = forms else {
        return Err(Missing::Absent);
    };
    let (pat, body) = both(pat_at(alloc, levels, pat), expr_at(alloc, levels, body))?;
    Ok(Arm { pat, body })
}

/// All but the last, and the last.
fn split_last(forms: &[Form]) -> Option<(&[Form], &Form)>
    ensures { option_map (λ parts. (parts.0.now, parts.1.now)) result ≡ split_last forms.now }
{
    match forms {
        [items @ .., last] => Some((items, last)),
        [] => None,
    }
}

/// `(do ITEM.. e)`, behind its keyword.
#[cycle(expression)]
fn sequence(alloc: Global, levels: u32, rest: &[Form]) -> Result<Expr, Missing>
    ensures { Gives result (do_by (expr_at levels) (item_at levels) rest.now) }
{
    let Some((items, last)) = split_last(rest) else {
        return Err(Missing::Absent);
    };
    if items.is_empty() {
        return Err(Missing::Absent);
    }
    let items = items_of(alloc, levels, items);
    let (items, last) = both(items, boxed_at(alloc, levels, last))?;
    Ok(Expr::Do(items, last))
}

#[tactic(auto, unfolding(crate::specs::Each::each_after))]
#[cycle(expression)]
fn items_of(alloc: Global, levels: u32, forms: &[Form]) -> Result<Seq<Item>, Missing>
    ensures { Gives result (each_of (item_at levels) forms.now) }
{
    let mut items = room_for(alloc, forms)?;
    for form in forms {
        items.push(item_at(alloc, levels, form)?)?;
    }
    Ok(items)
}

fn is_let(forms: &[Form]) -> bool
    ensures { result ≡ is_let forms.now }
{
    let [head, ..] = forms else {
        return false;
    };
    matches!(keyword_at(head), Some(Keyword::Let))
}

/// An item of a `do`.
#[cycle(expression)]
fn item_at(alloc: Global, levels: u32, form: &Form) -> Result<Item, Missing>
    ensures { Gives result (item_at levels form.now) }
{
    if let Form::List(forms) = form
        && is_let(forms.as_slice())
    {
        return binding(alloc, levels, forms.as_slice());
    }
    Ok(Item::Run(expr_at(alloc, levels, form)?))
}

/// `(let x T a)`.
#[tactic(auto, unfolding(crate::specs::Expression::let_at))]
#[cycle(expression)]
fn binding(alloc: Global, levels: u32, forms: &[Form]) -> Result<Item, Missing>
    ensures { Gives result (let_at levels forms.now) }
{
    if levels == 0 {
        return Err(Missing::Absent);
    }
    let levels = levels - 1;
    let [_, name, ty, value] = forms else {
        return Err(Missing::Absent);
    };
    let name = name_at(alloc, name)?;
    let ty = ty_at(alloc, levels, ty)?;
    let value = expr_at(alloc, levels, value)?;
    Ok(Item::Let(name, ty, value))
}
