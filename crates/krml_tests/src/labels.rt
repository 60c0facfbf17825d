//! The labelled types of expressions.

ghost use Rattle.std.specs.Prelude.{◌≡◌, ◌∷◌, [], IfOk};
ghost use Rattle.krml_syntax.specs.declared.tree.Expr.TheVariants as expr;
ghost use Rattle.krml_syntax.specs.declared.tree.Ty.TheVariants.{Int};
ghost use Rattle.krml_ast.specs.Labelled.{IsTypedIn};

use krml_ast::{Expr, Field, IntTy, SourceFile, Ty, type_of};
use krml_trace::{Box, Name, NoMemory, Seq, Width};
use std::alloc::Global;
use std::test::Fail;

const WORD: IntTy = IntTy {
    width: Width::W32,
    secret: false,
};

const SECRET: IntTy = IntTy {
    width: Width::W32,
    secret: true,
};

/// A variable of an integer type.
fn field(alloc: Global, x: &[u8], i: IntTy) -> Result<Field, NoMemory>
    ensures { IfOk result (λ r. r ≡ record { name = x.now; ty = Int i }) }
{
    let name = Name::new(alloc, x)?;
    Ok(Field {
        name,
        ty: Ty::Int(i),
    })
}

/// The scope of one variable.
fn scope_of_one(alloc: Global, x: &[u8], i: IntTy) -> Result<Seq<Field>, NoMemory>
    ensures { IfOk result (λ r. r ≡ record { name = x.now; ty = Int i } ∷ []) }
{
    let mut scope = Seq::new(alloc);
    scope.push(field(alloc, x, i)?)?;
    Ok(scope)
}

/// The scope of two variables of one name.
fn scope_of_two(alloc: Global, x: &[u8], i: IntTy, j: IntTy) -> Result<Seq<Field>, NoMemory>
    ensures { IfOk result (λ r. r ≡ record { name = x.now; ty = Int i } ∷ record { name = x.now; ty = Int j } ∷ []) }
{
    let mut scope = scope_of_one(alloc, x, i)?;
    scope.push(field(alloc, x, j)?)?;
    Ok(scope)
}

/// A variable.
fn variable(alloc: Global, x: &[u8]) -> Result<Box<Expr>, NoMemory>
    ensures { IfOk result (λ e. e ≡ expr.Var x.now) }
{
    let x = Name::new(alloc, x)?;
    Box::new(alloc, Expr::Var(x))
}

/// A variable of an integer type, hidden.
fn hidden(alloc: Global, x: &[u8], i: IntTy) -> Result<Box<Expr>, NoMemory>
    ensures { IfOk result (λ e. e ≡ expr.Hide i (expr.Var x.now)) }
{
    let x = variable(alloc, x)?;
    Box::new(alloc, Expr::Hide(i, x))
}

/// Whether an expression that no definition stands around is a secret word.
fn is_secret(alloc: Global, scope: &[Field], e: &Expr) -> Result<bool, NoMemory>
    requires { IsTypedIn [] scope.now e.now }
{
    let defs = Seq::new(alloc);
    let file = SourceFile { defs };
    let ty = type_of(alloc, &file, scope, e)?;
    Ok(matches!(ty, Ty::Int(SECRET)))
}

/// Whether a variable of an integer type is a secret word where it is hidden.
fn hides(alloc: Global, x: &[u8], i: IntTy) -> Result<bool, NoMemory> {
    let scope = scope_of_one(alloc, x, i)?;
    let e = hidden(alloc, x, i)?;
    is_secret(alloc, scope.as_slice(), e.get())
}

/// Whether a variable is a secret word where two variables of its name are in scope.
fn names_a_secret(alloc: Global, x: &[u8], i: IntTy, j: IntTy) -> Result<bool, NoMemory> {
    let scope = scope_of_two(alloc, x, i, j)?;
    let e = variable(alloc, x)?;
    is_secret(alloc, scope.as_slice(), e.get())
}

#[test]
fn gives_the_secret_type(rt: HostRuntime) -> Result<(), Fail> {
    assert!(rt; hides(rt.alloc(), b"x", WORD)?);
    Ok(())
}

#[test]
fn the_last_field_counts(rt: HostRuntime) -> Result<(), Fail> {
    assert!(rt; names_a_secret(rt.alloc(), b"x", WORD, SECRET)?);
    assert!(rt; !names_a_secret(rt.alloc(), b"x", SECRET, WORD)?);
    Ok(())
}
