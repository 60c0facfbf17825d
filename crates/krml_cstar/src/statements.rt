//! Statements of C, put together from results.

ghost use Rattle.std.specs.Prelude.{◌≡◌, ◌∷◌, ◌++◌, [], IfOk, IsOkAnd};
ghost use Rattle.krml_ctree.specs.declared.tree.CStatement.TheVariants as st;
ghost use Rattle.krml_cstar.specs.Translation.{arm};

use crate::terms::Term;
use krml_ctree::{CArm, CStatement};
use krml_trace::{Name, NoMemory, Seq, both};
use std::alloc::Global;

/// Statements in order, or want of memory.
pub type Code = Result<Seq<CStatement>, NoMemory>;

/// An assignment.
pub fn set(name: Result<Name, NoMemory>, value: Term) -> Result<CStatement, NoMemory>
    ensures { IfOk result (λ r. IsOkAnd name (λ x. IsOkAnd value (λ e. r ≡ st.Set x e))) }
{
    let (name, value) = both(name, value)?;
    Ok(CStatement::Set(name, value.into_inner()))
}

/// Statements with one more behind them.
pub fn ended(code: Seq<CStatement>, last: Result<CStatement, NoMemory>) -> Code
    ensures { IfOk result (λ r. IsOkAnd last (λ s. r ≡ code ++ s ∷ [])) }
{
    let mut code = code;
    code.push(last?)?;
    Ok(code)
}

/// A condition and what is done where it is true, alone.
fn arms(alloc: Global, test: Term, body: Code) -> Result<Seq<CArm>, NoMemory>
    ensures { IfOk result (λ r. IsOkAnd test (λ t. IsOkAnd body (λ code. r ≡ arm t code ∷ []))) }
{
    let (test, body) = both(test, body)?;
    let mut arms = Seq::new(alloc);
    arms.push(CArm {
        test: test.into_inner(),
        body,
    })?;
    Ok(arms)
}

/// `if (test) { body } else { rest }`.
pub fn chain(alloc: Global, test: Term, body: Code, rest: Code) -> Result<CStatement, NoMemory>
    ensures { IfOk result (λ r. IsOkAnd test (λ t. IsOkAnd body (λ code. IsOkAnd rest (λ other. r ≡ st.Chain (arm t code ∷ []) other)))) }
{
    let (arms, rest) = both(arms(alloc, test, body), rest)?;
    Ok(CStatement::Chain(arms, rest))
}

/// `while (test) { body }`, with statements before each test.
pub fn repeated(before: Code, test: Term, body: Code) -> Result<CStatement, NoMemory>
    ensures { IfOk result (λ r. IsOkAnd before (λ code. IsOkAnd test (λ t. IsOkAnd body (λ inner. r ≡ st.Loop code t inner)))) }
{
    let ((before, test), body) = both(both(before, test), body)?;
    Ok(CStatement::Loop(before, test.into_inner(), body))
}
