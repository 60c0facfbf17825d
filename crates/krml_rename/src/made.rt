//! Expressions, put together from results.

ghost use Rattle.std.specs.Prelude.{◌≡◌, IfOk, IsOkAnd};
ghost use Rattle.krml_syntax.specs.declared.tree.Arm.{roll-Arm};
ghost use Rattle.krml_syntax.specs.declared.tree.Case.{roll-Case};
ghost use Rattle.krml_syntax.specs.declared.tree.Item.TheVariants as i;
ghost use Rattle.krml_syntax.specs.declared.tree.Expr.TheVariants as e;

use crate::rename::Applied;
use krml_syntax::{Arm, BinOp, Case, CmpOp, Expr, IntTy, Item, Pat, Slot, Ty};
use krml_trace::{Box, Name, NoMemory, Seq, both};
use std::alloc::Global;

/// An expression, or want of memory. What puts expressions together takes such results and begins with the first error, so
/// that nothing in between returns early.
pub type Part = Result<Box<Expr>, NoMemory>;

/// Several expressions.
pub type Parts = Result<Seq<Expr>, NoMemory>;

pub fn var(alloc: Global, x: Result<Name, NoMemory>) -> Part
    ensures { IfOk result (λ r. IsOkAnd x (λ x. r ≡ e.Var x)) }
{
    let x = x?;
    Box::new(alloc, Expr::Var(x))
}

pub fn bin(alloc: Global, op: BinOp, ty: IntTy, a: Part, b: Part) -> Part
    ensures { IfOk result (λ r. IsOkAnd a (λ a. IsOkAnd b (λ b. r ≡ e.Bin op ty a b))) }
{
    let (a, b) = both(a, b)?;
    Box::new(alloc, Expr::Bin(op, ty, a, b))
}

pub fn shift(alloc: Global, left: bool, ty: IntTy, a: Part, n: Part) -> Part
    ensures { IfOk result (λ r. IsOkAnd a (λ a. IsOkAnd n (λ n. r ≡ e.Shift left ty a n))) }
{
    let (a, n) = both(a, n)?;
    Box::new(alloc, Expr::Shift(left, ty, a, n))
}

pub fn cmp(alloc: Global, op: CmpOp, ty: IntTy, a: Part, b: Part) -> Part
    ensures { IfOk result (λ r. IsOkAnd a (λ a. IsOkAnd b (λ b. r ≡ e.Cmp op ty a b))) }
{
    let (a, b) = both(a, b)?;
    Box::new(alloc, Expr::Cmp(op, ty, a, b))
}

pub fn opposite(alloc: Global, a: Part) -> Part
    ensures { IfOk result (λ r. IsOkAnd a (λ a. r ≡ e.Not a)) }
{
    let a = a?;
    Box::new(alloc, Expr::Not(a))
}

pub fn cast(alloc: Global, from: IntTy, to: IntTy, a: Part) -> Part
    ensures { IfOk result (λ r. IsOkAnd a (λ a. r ≡ e.Cast from to a)) }
{
    let a = a?;
    Box::new(alloc, Expr::Cast(from, to, a))
}

pub fn hide(alloc: Global, ty: IntTy, a: Part) -> Part
    ensures { IfOk result (λ r. IsOkAnd a (λ a. r ≡ e.Hide ty a)) }
{
    let a = a?;
    Box::new(alloc, Expr::Hide(ty, a))
}

pub fn make(alloc: Global, applied: Result<Applied, NoMemory>, es: Parts) -> Part
    ensures { IfOk result (λ r. IsOkAnd applied (λ x. IsOkAnd es (λ es. r ≡ e.Make x.0 x.1 es))) }
{
    let ((x, args), es) = both(applied, es)?;
    Box::new(alloc, Expr::Make(x, args, es))
}

pub fn get(alloc: Global, y: Result<Name, NoMemory>, a: Part) -> Part
    ensures { IfOk result (λ r. IsOkAnd y (λ y. IsOkAnd a (λ a. r ≡ e.Get y a))) }
{
    let (y, a) = both(y, a)?;
    Box::new(alloc, Expr::Get(y, a))
}

pub fn con(alloc: Global, applied: Result<Applied, NoMemory>, es: Parts) -> Part
    ensures { IfOk result (λ r. IsOkAnd applied (λ x. IsOkAnd es (λ es. r ≡ e.Con x.0 x.1 es))) }
{
    let ((x, args), es) = both(applied, es)?;
    Box::new(alloc, Expr::Con(x, args, es))
}

pub fn read(alloc: Global, a: Part, at: Part) -> Part
    ensures { IfOk result (λ r. IsOkAnd a (λ a. IsOkAnd at (λ at. r ≡ e.Read a at))) }
{
    let (a, at) = both(a, at)?;
    Box::new(alloc, Expr::Read(a, at))
}

pub fn write(alloc: Global, a: Part, at: Part, value: Part) -> Part
    ensures { IfOk result (λ r. IsOkAnd a (λ a. IsOkAnd at (λ at. IsOkAnd value (λ v. r ≡ e.Write a at v)))) }
{
    let (a, (at, value)) = both(a, both(at, value))?;
    Box::new(alloc, Expr::Write(a, at, value))
}

pub fn slice(alloc: Global, a: Part, from: Part, len: Part) -> Part
    ensures { IfOk result (λ r. IsOkAnd a (λ a. IsOkAnd from (λ from. IsOkAnd len (λ len. r ≡ e.Slice a from len)))) }
{
    let (a, (from, len)) = both(a, both(from, len))?;
    Box::new(alloc, Expr::Slice(a, from, len))
}

pub fn tab(alloc: Global, x: Result<Name, NoMemory>, at: Part) -> Part
    ensures { IfOk result (λ r. IsOkAnd x (λ x. IsOkAnd at (λ at. r ≡ e.Tab x at))) }
{
    let (x, at) = both(x, at)?;
    Box::new(alloc, Expr::Tab(x, at))
}

pub fn choice(alloc: Global, test: Part, a: Part, b: Part) -> Part
    ensures { IfOk result (λ r. IsOkAnd test (λ test. IsOkAnd a (λ a. IsOkAnd b (λ b. r ≡ e.If test a b)))) }
{
    let (test, (a, b)) = both(test, both(a, b))?;
    Box::new(alloc, Expr::If(test, a, b))
}

pub fn branches(alloc: Global, a: Part, arms: Result<Seq<Arm>, NoMemory>) -> Part
    ensures { IfOk result (λ r. IsOkAnd a (λ a. IsOkAnd arms (λ arms. r ≡ e.Match a arms))) }
{
    let (a, arms) = both(a, arms)?;
    Box::new(alloc, Expr::Match(a, arms))
}

pub fn sequence(alloc: Global, items: Result<Seq<Item>, NoMemory>, a: Part) -> Part
    ensures { IfOk result (λ r. IsOkAnd items (λ items. IsOkAnd a (λ a. r ≡ e.Do items a))) }
{
    let (items, a) = both(items, a)?;
    Box::new(alloc, Expr::Do(items, a))
}

pub fn frame(alloc: Global, slots: Result<Seq<Slot>, NoMemory>, a: Part) -> Part
    ensures { IfOk result (λ r. IsOkAnd slots (λ slots. IsOkAnd a (λ a. r ≡ e.Frame slots a))) }
{
    let (slots, a) = both(slots, a)?;
    Box::new(alloc, Expr::Frame(slots, a))
}

pub fn buffer(alloc: Global, ty: Result<Ty, NoMemory>, len: u32, a: Part) -> Part
    ensures { IfOk result (λ r. IsOkAnd ty (λ ty. IsOkAnd a (λ a. r ≡ e.Alloc ty len a))) }
{
    let (ty, a) = both(ty, a)?;
    Box::new(alloc, Expr::Alloc(ty, len, a))
}

pub fn repeated(alloc: Global, test: Part, a: Part) -> Part
    ensures { IfOk result (λ r. IsOkAnd test (λ test. IsOkAnd a (λ a. r ≡ e.While test a))) }
{
    let (test, a) = both(test, a)?;
    Box::new(alloc, Expr::While(test, a))
}

pub fn counted(alloc: Global, x: Result<Name, NoMemory>, from: Part, to: Part, a: Part) -> Part
    ensures { IfOk result (λ r. IsOkAnd x (λ x. IsOkAnd from (λ from. IsOkAnd to (λ to. IsOkAnd a (λ a. r ≡ e.For x from to a))))) }
{
    let ((x, from), (to, a)) = both(both(x, from), both(to, a))?;
    Box::new(alloc, Expr::For(x, from, to, a))
}

pub fn call(alloc: Global, applied: Result<Applied, NoMemory>, es: Parts) -> Part
    ensures { IfOk result (λ r. IsOkAnd applied (λ x. IsOkAnd es (λ es. r ≡ e.Call x.0 x.1 es))) }
{
    let ((x, args), es) = both(applied, es)?;
    Box::new(alloc, Expr::Call(x, args, es))
}

pub fn cases(alloc: Global, cases: Result<Seq<Case>, NoMemory>) -> Part
    ensures { IfOk result (λ r. IsOkAnd cases (λ cases. r ≡ e.Cases cases)) }
{
    let cases = cases?;
    Box::new(alloc, Expr::Cases(cases))
}

pub fn tag_is(alloc: Global, x: Result<Name, NoMemory>, a: Part) -> Part
    ensures { IfOk result (λ r. IsOkAnd x (λ x. IsOkAnd a (λ a. r ≡ e.TagIs x a))) }
{
    let (x, a) = both(x, a)?;
    Box::new(alloc, Expr::TagIs(x, a))
}

pub fn part(alloc: Global, x: Result<Name, NoMemory>, j: u32, a: Part) -> Part
    ensures { IfOk result (λ r. IsOkAnd x (λ x. IsOkAnd a (λ a. r ≡ e.Part x j a))) }
{
    let (x, a) = both(x, a)?;
    Box::new(alloc, Expr::Part(x, j, a))
}

pub fn fill(alloc: Global, k: u32, a: Part) -> Part
    ensures { IfOk result (λ r. IsOkAnd a (λ a. r ≡ e.Fill k a)) }
{
    let a = a?;
    Box::new(alloc, Expr::Fill(k, a))
}

pub fn bound(x: Result<Name, NoMemory>, ty: Result<Ty, NoMemory>, a: Part) -> Result<Item, NoMemory>
    ensures { IfOk result (λ r. IsOkAnd x (λ x. IsOkAnd ty (λ ty. IsOkAnd a (λ a. r ≡ i.Let x ty a)))) }
{
    let (x, (ty, a)) = both(x, both(ty, a))?;
    Ok(Item::Let(x, ty, a.into_inner()))
}

pub fn run(a: Part) -> Result<Item, NoMemory>
    ensures { IfOk result (λ r. IsOkAnd a (λ a. r ≡ i.Run a)) }
{
    Ok(Item::Run(a?.into_inner()))
}

pub fn arm(pat: Result<Pat, NoMemory>, body: Part) -> Result<Arm, NoMemory>
    ensures { IfOk result (λ r. IsOkAnd pat (λ pat. IsOkAnd body (λ body. r ≡ roll-Arm (record { pat = pat; body = body })))) }
{
    let (pat, body) = both(pat, body)?;
    Ok(Arm {
        pat,
        body: body.into_inner(),
    })
}

pub fn case(tests: Parts, body: Part) -> Result<Case, NoMemory>
    ensures { IfOk result (λ r. IsOkAnd tests (λ tests. IsOkAnd body (λ body. r ≡ roll-Case (record { tests = tests; body = body })))) }
{
    let (tests, body) = both(tests, body)?;
    Ok(Case {
        tests,
        body: body.into_inner(),
    })
}
