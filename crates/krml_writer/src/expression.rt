//! The form of an expression.

ghost use Rattle.std.specs.Prelude.{◌≡◌, [], ◌∷◌, ◌++◌, IfOk, IsOkAnd, codes, map};
ghost use Rattle.krml_writer.specs.Written.{applied_form, frame_form, form_of_expr, form_of_item, form_of_arm};

use crate::part::{Part, binary, list, list_with, number, ternary, unary, word};
use crate::types::{form_of_pat, form_of_ty, forms_of_tys};
use krml_forms::Form;
use krml_syntax::{Arm, Expr, Item, Slot, Ty, bin_word, bool_word, cmp_word, int_word, shift_word};
use krml_trace::{Name, NoMemory, Seq, both};
use std::alloc::Global;

/// A form that spells nothing, for an expression that no text spells.
fn nothing(alloc: Global) -> Form
    ensures { result ≡ Rattle.krml_writer.specs.Written.nothing }
{
    Form::List(Seq::new(alloc))
}

/// A word, a name, type arguments, and forms of expressions.
fn applied(
    alloc: Global,
    head: &[u8],
    name: &Name,
    tys: &[Ty],
    values: Result<Seq<Form>, NoMemory>,
) -> Part
    ensures { IfOk result (λ form. IsOkAnd values (λ values. form ≡ applied_form head.now name.now tys.now values)) }
{
    let tys = Form::List(forms_of_tys(alloc, tys)?);
    list_with(
        alloc,
        [word(alloc, head), word(alloc, name.as_bytes()), Ok(tys)],
        values,
    )
}

/// `(for x a b e)`.
fn counting(alloc: Global, name: &Name, first: Part, end: Part, body: Part) -> Part
    ensures { IfOk result (λ form. IsOkAnd first (λ a. IsOkAnd end (λ b. IsOkAnd body (λ c. form ≡ Form.List (Form.Atom (codes "for") ∷ Form.Atom name.now ∷ a ∷ b ∷ c ∷ []))))) }
{
    let name = word(alloc, name.as_bytes());
    list(alloc, [word(alloc, b"for"), name, first, end, body])
}

/// `(match e (P a)..)`, of a value and branches.
fn matching(alloc: Global, value: Part, arms: Result<Seq<Form>, NoMemory>) -> Part
    ensures { IfOk result (λ form. IsOkAnd value (λ value. IsOkAnd arms (λ arms. form ≡ Form.List (Form.Atom (codes "match") ∷ value ∷ arms)))) }
{
    list_with(alloc, [word(alloc, b"match"), value], arms)
}

/// `(do ITEM.. e)`, of items and the expression behind them.
fn sequence(alloc: Global, items: Result<Seq<Form>, NoMemory>, last: Part) -> Part
    ensures { IfOk result (λ form. IsOkAnd items (λ items. IsOkAnd last (λ last. form ≡ Form.List (Form.Atom (codes "do") ∷ items ++ last ∷ [])))) }
{
    let (mut forms, last) = both(items, last)?;
    forms.push(last)?;
    list_with(alloc, [word(alloc, b"do")], Ok(forms))
}

/// A frame; no text spells one with slots.
fn frame(alloc: Global, slots: &[Slot], body: Part) -> Part
    ensures { IfOk result (λ form. IsOkAnd body (λ body. form ≡ frame_form slots.now body)) }
{
    let body = body?;
    match slots {
        [] => unary(alloc, b"frame", Ok(body)),
        [_, ..] => Ok(nothing(alloc)),
    }
}

/// The form of an expression.
#[cycle(write)]
pub fn form_of_expr(alloc: Global, expr: &Expr) -> Part
    ensures { IfOk result (λ form. form ≡ form_of_expr expr.now) }
{
    match expr {
        Expr::Var(name) => word(alloc, name.as_bytes()),
        Expr::Unit => word(alloc, b"unit"),
        Expr::Bool(b) => word(alloc, bool_word(*b)),
        Expr::Num(int, n) => unary(alloc, int_word(*int), number(alloc, *n)),
        Expr::Bin(op, int, a, b) => ternary(
            alloc,
            bin_word(*op),
            word(alloc, int_word(*int)),
            form_of_expr(alloc, a.get()),
            form_of_expr(alloc, b.get()),
        ),
        Expr::Shift(left, int, a, b) => ternary(
            alloc,
            shift_word(*left),
            word(alloc, int_word(*int)),
            form_of_expr(alloc, a.get()),
            form_of_expr(alloc, b.get()),
        ),
        Expr::Cmp(op, int, a, b) => ternary(
            alloc,
            cmp_word(*op),
            word(alloc, int_word(*int)),
            form_of_expr(alloc, a.get()),
            form_of_expr(alloc, b.get()),
        ),
        Expr::Not(a) => unary(alloc, b"not", form_of_expr(alloc, a.get())),
        Expr::Cast(from, to, a) => ternary(
            alloc,
            b"cast",
            word(alloc, int_word(*from)),
            word(alloc, int_word(*to)),
            form_of_expr(alloc, a.get()),
        ),
        Expr::Hide(int, a) => binary(
            alloc,
            b"hide",
            word(alloc, int_word(*int)),
            form_of_expr(alloc, a.get()),
        ),
        Expr::Make(name, tys, values) => applied(
            alloc,
            b"make",
            name,
            tys.as_slice(),
            forms_of_exprs(alloc, values.as_slice()),
        ),
        Expr::Get(field, a) => binary(
            alloc,
            b"get",
            word(alloc, field.as_bytes()),
            form_of_expr(alloc, a.get()),
        ),
        Expr::Con(name, tys, values) => applied(
            alloc,
            b"con",
            name,
            tys.as_slice(),
            forms_of_exprs(alloc, values.as_slice()),
        ),
        Expr::Read(a, b) => binary(
            alloc,
            b"read",
            form_of_expr(alloc, a.get()),
            form_of_expr(alloc, b.get()),
        ),
        Expr::Write(a, b, c) => ternary(
            alloc,
            b"write",
            form_of_expr(alloc, a.get()),
            form_of_expr(alloc, b.get()),
            form_of_expr(alloc, c.get()),
        ),
        Expr::Slice(a, b, c) => ternary(
            alloc,
            b"slice",
            form_of_expr(alloc, a.get()),
            form_of_expr(alloc, b.get()),
            form_of_expr(alloc, c.get()),
        ),
        Expr::Tab(table, a) => binary(
            alloc,
            b"tab",
            word(alloc, table.as_bytes()),
            form_of_expr(alloc, a.get()),
        ),
        Expr::If(c, a, b) => ternary(
            alloc,
            b"if",
            form_of_expr(alloc, c.get()),
            form_of_expr(alloc, a.get()),
            form_of_expr(alloc, b.get()),
        ),
        Expr::Match(a, arms) => matching(
            alloc,
            form_of_expr(alloc, a.get()),
            forms_of_arms(alloc, arms.as_slice()),
        ),
        Expr::Do(items, a) => sequence(
            alloc,
            forms_of_items(alloc, items.as_slice()),
            form_of_expr(alloc, a.get()),
        ),
        Expr::Frame(slots, a) => frame(alloc, slots.as_slice(), form_of_expr(alloc, a.get())),
        Expr::Alloc(ty, n, a) => ternary(
            alloc,
            b"alloc",
            form_of_ty(alloc, ty),
            number(alloc, *n as u64),
            form_of_expr(alloc, a.get()),
        ),
        Expr::While(c, a) => binary(
            alloc,
            b"while",
            form_of_expr(alloc, c.get()),
            form_of_expr(alloc, a.get()),
        ),
        Expr::For(name, a, b, c) => counting(
            alloc,
            name,
            form_of_expr(alloc, a.get()),
            form_of_expr(alloc, b.get()),
            form_of_expr(alloc, c.get()),
        ),
        Expr::Call(name, tys, values) => applied(
            alloc,
            b"call",
            name,
            tys.as_slice(),
            forms_of_exprs(alloc, values.as_slice()),
        ),
        Expr::Cases(_) | Expr::TagIs(_, _) | Expr::Part(_, _, _) | Expr::Fill(_, _) => {
            Ok(nothing(alloc))
        }
    }
}

/// The forms of expressions, in order.
#[cycle(write)]
fn forms_of_exprs(alloc: Global, exprs: &[Expr]) -> Result<Seq<Form>, NoMemory>
    ensures { IfOk result (λ forms. forms ≡ map form_of_expr exprs.now) }
{
    let mut forms = Seq::new(alloc);
    for expr in exprs {
        forms.push(form_of_expr(alloc, expr)?)?;
    }
    Ok(forms)
}

/// The form of an item of a `do`.
#[cycle(write)]
fn form_of_item(alloc: Global, item: &Item) -> Part
    ensures { IfOk result (λ form. form ≡ form_of_item item.now) }
{
    match item {
        Item::Let(name, ty, value) => {
            let ty = form_of_ty(alloc, ty);
            let value = form_of_expr(alloc, value);
            ternary(alloc, b"let", word(alloc, name.as_bytes()), ty, value)
        }
        Item::Run(expr) => form_of_expr(alloc, expr),
    }
}

/// The forms of items, in order.
#[cycle(write)]
fn forms_of_items(alloc: Global, items: &[Item]) -> Result<Seq<Form>, NoMemory>
    ensures { IfOk result (λ forms. forms ≡ map form_of_item items.now) }
{
    let mut forms = Seq::new(alloc);
    for item in items {
        forms.push(form_of_item(alloc, item)?)?;
    }
    Ok(forms)
}

/// The form of a branch of a `match`.
#[cycle(write)]
fn form_of_arm(alloc: Global, arm: &Arm) -> Part
    ensures { IfOk result (λ form. form ≡ form_of_arm arm.now) }
{
    let pat = form_of_pat(alloc, &arm.pat);
    let body = form_of_expr(alloc, &arm.body);
    list(alloc, [pat, body])
}

/// The forms of branches, in order.
#[cycle(write)]
fn forms_of_arms(alloc: Global, arms: &[Arm]) -> Result<Seq<Form>, NoMemory>
    ensures { IfOk result (λ forms. forms ≡ map form_of_arm arms.now) }
{
    let mut forms = Seq::new(alloc);
    for arm in arms {
        forms.push(form_of_arm(alloc, arm)?)?;
    }
    Ok(forms)
}
