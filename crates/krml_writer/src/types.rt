//! The forms of types and patterns.

ghost use Rattle.std.specs.Prelude.{◌≡◌, IfOk, IsOkAnd, map};
ghost use Rattle.krml_writer.specs.Written.{named_form, form_of_ty, form_of_pat};

use crate::part::{Part, list_with, number, unary, variable, word};
use krml_forms::Form;
use krml_syntax::{Pat, Ty, bool_word, int_word};
use krml_trace::{NoMemory, Seq};
use std::alloc::Global;

/// A type at its arguments.
fn named(alloc: Global, name: &[u8], args: Result<Seq<Form>, NoMemory>) -> Part
    ensures { IfOk result (λ form. IsOkAnd args (λ args. form ≡ named_form name.now args)) }
{
    let args = args?;
    match args.as_slice() {
        [] => word(alloc, name),
        [_, ..] => list_with(alloc, [word(alloc, name)], Ok(args)),
    }
}

/// The form of a type.
#[cycle(ty)]
pub fn form_of_ty(alloc: Global, ty: &Ty) -> Part
    ensures { IfOk result (λ form. form ≡ form_of_ty ty.now) }
{
    match ty {
        Ty::Bool => word(alloc, b"bool"),
        Ty::Unit => word(alloc, b"unit"),
        Ty::Int(int) => word(alloc, int_word(*int)),
        Ty::Buf(element) => {
            let element = form_of_ty(alloc, element.get());
            unary(alloc, b"buf", element)
        }
        Ty::Var(name) => variable(alloc, name),
        Ty::Named(name, args) => {
            let args = forms_of_tys(alloc, args.as_slice());
            named(alloc, name.as_bytes(), args)
        }
    }
}

/// The forms of types, in order.
#[cycle(ty)]
pub fn forms_of_tys(alloc: Global, tys: &[Ty]) -> Result<Seq<Form>, NoMemory>
    ensures { IfOk result (λ forms. forms ≡ map form_of_ty tys.now) }
{
    let mut forms = Seq::new(alloc);
    for ty in tys {
        forms.push(form_of_ty(alloc, ty)?)?;
    }
    Ok(forms)
}

/// The form of a pattern.
#[cycle(pat)]
pub fn form_of_pat(alloc: Global, pat: &Pat) -> Part
    ensures { IfOk result (λ form. form ≡ form_of_pat pat.now) }
{
    match pat {
        Pat::Any => word(alloc, b"_"),
        Pat::Bind(name) => word(alloc, name.as_bytes()),
        Pat::Bool(b) => word(alloc, bool_word(*b)),
        Pat::Num(int, n) => unary(alloc, int_word(*int), number(alloc, *n)),
        Pat::Con(name, args) => {
            let args = forms_of_pats(alloc, args.as_slice());
            list_with(
                alloc,
                [word(alloc, b"con"), word(alloc, name.as_bytes())],
                args,
            )
        }
        Pat::Make(name, fields) => {
            let fields = forms_of_pats(alloc, fields.as_slice());
            list_with(
                alloc,
                [word(alloc, b"make"), word(alloc, name.as_bytes())],
                fields,
            )
        }
    }
}

/// The forms of patterns, in order.
#[cycle(pat)]
fn forms_of_pats(alloc: Global, pats: &[Pat]) -> Result<Seq<Form>, NoMemory>
    ensures { IfOk result (λ forms. forms ≡ map form_of_pat pats.now) }
{
    let mut forms = Seq::new(alloc);
    for pat in pats {
        forms.push(form_of_pat(alloc, pat)?)?;
    }
    Ok(forms)
}
