//! An expression under other names.

ghost use Rattle.std.specs.Prelude.{◌≡◌, IfOk, map};
ghost use Rattle.krml_rename.specs.Pass.{item_passed, arm_passed, case_passed};
ghost use Rattle.krml_rename.specs.Renaming.{slot_renamed, renaming, expr_renamed};

use crate::made::{
    Part, Parts, arm, bin, bound, branches, buffer, call, case, cases, cast, choice, cmp, con,
    counted, fill, frame, get, hide, make, opposite, part, read, repeated, run, sequence, shift,
    slice, tab, tag_is, var, write,
};
use crate::rename::Rename;
use krml_syntax::{Arm, Case, Expr, Item, Slot};
use krml_trace::{Box, NoMemory, Seq};
use std::alloc::Global;

/// Slots whose types are others.
fn slots<R: Rename>(alloc: Global, rename: &R, slots: &[Slot]) -> Result<Seq<Slot>, NoMemory>
    ensures { IfOk result (λ r. r ≡ map (slot_renamed (R.renaming rename.now)) slots.now) }
{
    let mut all = Seq::new(alloc);
    for slot in slots {
        let ty = rename.ty(alloc, &slot.ty)?;
        all.push(Slot { ty, len: slot.len })?;
    }
    Ok(all)
}

/// The expression with the names and types that a pass gives in the place of its own.
#[tactic(auto, using(crate::proofs::Equations::make_is, crate::proofs::Equations::con_is, crate::proofs::Equations::call_is, crate::proofs::Equations::match_is, crate::proofs::Equations::do_is, crate::proofs::Equations::cases_is))]
#[cycle(rename)]
pub fn renamed<R: Rename>(alloc: Global, rename: &R, e: &Expr) -> Part
    ensures { IfOk result (λ r. r ≡ expr_renamed (R.renaming rename.now) e.now) }
{
    match e {
        Expr::Var(x) => var(alloc, x.copy(alloc)),
        Expr::Unit => Box::new(alloc, Expr::Unit),
        Expr::Bool(b) => Box::new(alloc, Expr::Bool(*b)),
        Expr::Num(ty, n) => Box::new(alloc, Expr::Num(*ty, *n)),
        Expr::Bin(op, ty, a, b) => {
            let a = renamed(alloc, rename, a.get());
            let b = renamed(alloc, rename, b.get());
            bin(alloc, *op, *ty, a, b)
        }
        Expr::Shift(left, ty, a, n) => {
            let a = renamed(alloc, rename, a.get());
            let n = renamed(alloc, rename, n.get());
            shift(alloc, *left, *ty, a, n)
        }
        Expr::Cmp(op, ty, a, b) => {
            let a = renamed(alloc, rename, a.get());
            let b = renamed(alloc, rename, b.get());
            cmp(alloc, *op, *ty, a, b)
        }
        Expr::Not(a) => opposite(alloc, renamed(alloc, rename, a.get())),
        Expr::Cast(from, to, a) => cast(alloc, *from, *to, renamed(alloc, rename, a.get())),
        Expr::Hide(ty, a) => hide(alloc, *ty, renamed(alloc, rename, a.get())),
        Expr::Make(x, args, es) => {
            let es = each(alloc, rename, es.as_slice());
            make(alloc, rename.structure(alloc, x, args.as_slice()), es)
        }
        Expr::Get(y, a) => {
            let a = renamed(alloc, rename, a.get());
            get(alloc, rename.field(alloc, y), a)
        }
        Expr::Con(x, args, es) => {
            let es = each(alloc, rename, es.as_slice());
            con(alloc, rename.con(alloc, x, args.as_slice()), es)
        }
        Expr::Read(a, at) => {
            let a = renamed(alloc, rename, a.get());
            let at = renamed(alloc, rename, at.get());
            read(alloc, a, at)
        }
        Expr::Write(a, at, value) => {
            let a = renamed(alloc, rename, a.get());
            let at = renamed(alloc, rename, at.get());
            let value = renamed(alloc, rename, value.get());
            write(alloc, a, at, value)
        }
        Expr::Slice(a, from, len) => {
            let a = renamed(alloc, rename, a.get());
            let from = renamed(alloc, rename, from.get());
            let len = renamed(alloc, rename, len.get());
            slice(alloc, a, from, len)
        }
        Expr::Tab(x, at) => {
            let at = renamed(alloc, rename, at.get());
            tab(alloc, rename.table(alloc, x), at)
        }
        Expr::If(test, a, b) => {
            let test = renamed(alloc, rename, test.get());
            let a = renamed(alloc, rename, a.get());
            let b = renamed(alloc, rename, b.get());
            choice(alloc, test, a, b)
        }
        Expr::Match(a, arms) => {
            let a = renamed(alloc, rename, a.get());
            branches(alloc, a, each_arm(alloc, rename, arms.as_slice()))
        }
        Expr::Do(items, a) => {
            let items = each_item(alloc, rename, items.as_slice());
            sequence(alloc, items, renamed(alloc, rename, a.get()))
        }
        Expr::Frame(list, a) => {
            let a = renamed(alloc, rename, a.get());
            frame(alloc, slots(alloc, rename, list.as_slice()), a)
        }
        Expr::Alloc(ty, len, a) => {
            let a = renamed(alloc, rename, a.get());
            buffer(alloc, rename.ty(alloc, ty), *len, a)
        }
        Expr::While(test, a) => {
            let test = renamed(alloc, rename, test.get());
            repeated(alloc, test, renamed(alloc, rename, a.get()))
        }
        Expr::For(x, from, to, a) => {
            let from = renamed(alloc, rename, from.get());
            let to = renamed(alloc, rename, to.get());
            let a = renamed(alloc, rename, a.get());
            counted(alloc, x.copy(alloc), from, to, a)
        }
        Expr::Call(x, args, es) => {
            let es = each(alloc, rename, es.as_slice());
            call(alloc, rename.fun(alloc, x, args.as_slice()), es)
        }
        Expr::Cases(list) => cases(alloc, each_case(alloc, rename, list.as_slice())),
        Expr::TagIs(x, a) => {
            let a = renamed(alloc, rename, a.get());
            tag_is(alloc, rename.tag(alloc, x), a)
        }
        Expr::Part(x, j, a) => {
            let a = renamed(alloc, rename, a.get());
            part(alloc, rename.tag(alloc, x), *j, a)
        }
        Expr::Fill(k, a) => fill(alloc, *k, renamed(alloc, rename, a.get())),
    }
}

/// Each of several expressions.
#[cycle(rename)]
fn each<R: Rename>(alloc: Global, rename: &R, es: &[Expr]) -> Parts
    ensures { IfOk result (λ r. r ≡ map (expr_renamed (R.renaming rename.now)) es.now) }
{
    let mut all = Seq::new(alloc);
    for e in es {
        all.push(renamed(alloc, rename, e)?.into_inner())?;
    }
    Ok(all)
}

/// What stands in a `do`. A variable keeps its name.
#[cycle(rename)]
fn item<R: Rename>(alloc: Global, rename: &R, item: &Item) -> Result<Item, NoMemory>
    ensures { IfOk result (λ r. r ≡ item_passed (renaming (R.renaming rename.now)) item.now) }
{
    match item {
        Item::Let(x, ty, a) => {
            let a = renamed(alloc, rename, a);
            bound(x.copy(alloc), rename.ty(alloc, ty), a)
        }
        Item::Run(a) => run(renamed(alloc, rename, a)),
    }
}

#[cycle(rename)]
fn each_item<R: Rename>(alloc: Global, rename: &R, items: &[Item]) -> Result<Seq<Item>, NoMemory>
    ensures { IfOk result (λ r. r ≡ map (item_passed (renaming (R.renaming rename.now))) items.now) }
{
    let mut all = Seq::new(alloc);
    for i in items {
        all.push(item(alloc, rename, i)?)?;
    }
    Ok(all)
}

#[cycle(rename)]
fn each_arm<R: Rename>(alloc: Global, rename: &R, arms: &[Arm]) -> Result<Seq<Arm>, NoMemory>
    ensures { IfOk result (λ r. r ≡ map (arm_passed (renaming (R.renaming rename.now))) arms.now) }
{
    let mut all = Seq::new(alloc);
    for a in arms {
        let body = renamed(alloc, rename, &a.body);
        all.push(arm(rename.pat(alloc, &a.pat), body)?)?;
    }
    Ok(all)
}

/// A case.
#[tactic(auto, using(crate::proofs::Equations::case_is))]
#[cycle(rename)]
fn one_case<R: Rename>(alloc: Global, rename: &R, c: &Case) -> Result<Case, NoMemory>
    ensures { IfOk result (λ r. r ≡ case_passed (renaming (R.renaming rename.now)) c.now) }
{
    let tests = each(alloc, rename, c.tests.as_slice());
    case(tests, renamed(alloc, rename, &c.body))
}

#[cycle(rename)]
fn each_case<R: Rename>(alloc: Global, rename: &R, list: &[Case]) -> Result<Seq<Case>, NoMemory>
    ensures { IfOk result (λ r. r ≡ map (case_passed (renaming (R.renaming rename.now))) list.now) }
{
    let mut all = Seq::new(alloc);
    for c in list {
        all.push(one_case(alloc, rename, c)?)?;
    }
    Ok(all)
}
