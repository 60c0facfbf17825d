//! Definitions whose frames list their slots.

ghost use Rattle.std.specs.Prelude.{◌≡◌, Some, None, IfOk, IfErr, IsOkAnd, MatchResult, map};
ghost use Rattle.krml_trace.specs.First.{first};
ghost use Rattle.krml_rename.specs.Pass.{def_with};
ghost use Rattle.krml_passing.specs.Hoisted.{body_hoisted};
ghost use Rattle.krml_hoist.specs.declared.refusal.HoistRefusal.TheVariants.{NoMemory};
ghost use Rattle.krml_hoist.specs.Large.{large_def};
ghost use Rattle.krml_hoist.specs.Refusing.{Refuses, large_fun};
ghost use Rattle.krml_hoist.specs.Walk.{large_in};

use crate::hoister::Hoister;
use crate::refusal::HoistRefusal;
use krml_ast::source_name;
use krml_layout::Layouts;
use krml_rename::made::Part;
use krml_rename::{clone_def, fun_with};
use krml_syntax::{Def, Expr};
use krml_trace::{Box, Name, Seq};
use std::alloc::Global;

/// The refusal of a function with a frame of too many bytes.
fn refusal(alloc: Global, name: &Name, bytes: u64) -> HoistRefusal
    ensures { Refuses (large_fun name.now (Some bytes)) result }
{
    match source_name(alloc, name) {
        Ok(fun) => HoistRefusal::FrameTooLarge { fun, bytes },
        Err(_) => HoistRefusal::NoMemory,
    }
}

/// The body of a function, where none of its frames takes too many bytes.
fn judged(
    alloc: Global,
    name: &Name,
    large: Option<u64>,
    body: Part,
) -> Result<Box<Expr>, HoistRefusal>
    ensures value { IfOk result (λ r. IsOkAnd body (λ body. r ≡ body)) }
    ensures small { IfOk result (λ _. large ≡ None) }
    ensures refused { IfErr result (λ e. MatchResult body (λ _. Refuses (large_fun name.now large) e) (λ _. e ≡ NoMemory)) }
{
    let body = body?;
    match large {
        None => Ok(body),
        Some(bytes) => Err(refusal(alloc, name, bytes)),
    }
}

/// The body of a function whose frames list their slots.
#[tactic(auto, using(crate::proofs::Bodies::body_made))]
fn body_hoisted(
    alloc: Global,
    layouts: &Layouts<'_>,
    name: &Name,
    body: &Expr,
) -> Result<Box<Expr>, HoistRefusal>
    ensures value { IfOk result (λ r. r ≡ body_hoisted body.now) }
    ensures small { IfOk result (λ _. large_in layouts.now (body_hoisted body.now) ≡ None) }
    ensures refused { IfErr result (λ e. Refuses (large_fun name.now (large_in layouts.now (body_hoisted body.now))) e) }
{
    let mut hoister = Hoister::new(alloc, layouts);
    let part = hoister.expr(body);
    judged(alloc, name, hoister.large, part)
}

/// A definition whose frames list their slots.
fn def_hoisted(alloc: Global, layouts: &Layouts<'_>, def: &Def) -> Result<Def, HoistRefusal>
    ensures value { IfOk result (λ r. r ≡ def_with body_hoisted def.now) }
    ensures small { IfOk result (λ _. large_def layouts.now (def_with body_hoisted def.now) ≡ None) }
    ensures refused { IfErr result (λ e. Refuses (large_def layouts.now (def_with body_hoisted def.now)) e) }
{
    match def {
        Def::Fun {
            name,
            vars,
            params,
            result,
            body,
        } => {
            let body = body_hoisted(alloc, layouts, name, body)?;
            Ok(fun_with(
                alloc,
                name,
                vars.as_slice(),
                params.as_slice(),
                result,
                Ok(body),
            )?)
        }
        Def::Struct { .. } | Def::Sum { .. } | Def::Table { .. } | Def::Entry { .. } => {
            Ok(clone_def(alloc, def)?)
        }
    }
}

/// Definitions whose frames list their slots, where none of these takes too many bytes.
pub fn defs_hoisted(
    alloc: Global,
    layouts: &Layouts<'_>,
    defs: &[Def],
) -> Result<Seq<Def>, HoistRefusal>
    ensures value { IfOk result (λ r. r ≡ map (def_with body_hoisted) defs.now) }
    ensures small { IfOk result (λ r. first (large_def layouts.now) r ≡ None) }
    ensures refused { IfErr result (λ e. Refuses (first (large_def layouts.now) (map (def_with body_hoisted) defs.now)) e) }
{
    let mut all = Seq::new(alloc);
    for def in defs {
        all.push(def_hoisted(alloc, layouts, def)?)?;
    }
    Ok(all)
}
