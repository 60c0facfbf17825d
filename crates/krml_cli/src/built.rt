//! Which definitions are of the part of the language that is built, with buffers or without.

ghost use Rattle.std.specs.Prelude.{◌≡◌, map};
ghost use Rattle.krml_cstar.specs.Built.{is_public, first_beyond};
ghost use Rattle.krml_cli.specs.Unbuilt.{all, is_ty_built, are_fields_built, is_expr_built, is_item_built, is_def_built};

use krml_ast::{Def, Expr, Field, IntTy, Item, SourceFile, Ty};

fn is_public(ty: IntTy) -> bool
    ensures { result ≡ is_public ty }
{
    !ty.secret
}

fn is_ty_built(buffers: bool, ty: &Ty) -> bool
    ensures { result ≡ is_ty_built buffers ty.now }
{
    match ty {
        Ty::Bool | Ty::Unit => true,
        Ty::Int(ty) => is_public(*ty),
        Ty::Named(_, args) => args.is_empty(),
        Ty::Buf(ty) => buffers && is_ty_built(buffers, ty.get()),
        Ty::Var(_) => false,
    }
}

#[cycle(built)]
fn is_expr_built(buffers: bool, expr: &Expr) -> bool
    ensures { result ≡ is_expr_built buffers expr.now }
{
    match expr {
        Expr::Var(_) | Expr::Unit | Expr::Bool(_) => true,
        Expr::Num(ty, _) => is_public(*ty),
        Expr::Bin(_, ty, a, b) | Expr::Shift(_, ty, a, b) | Expr::Cmp(_, ty, a, b) => {
            is_public(*ty) && is_expr_built(buffers, a.get()) && is_expr_built(buffers, b.get())
        }
        Expr::Cast(from, to, a) => is_public(*from)
            && is_public(*to)
            && is_expr_built(buffers, a.get()),
        Expr::Not(a) | Expr::Get(_, a) | Expr::Tab(_, a) => is_expr_built(buffers, a.get()),
        Expr::Make(_, args, values) | Expr::Call(_, args, values) => {
            args.is_empty() && are_exprs_built(buffers, values.as_slice())
        }
        Expr::If(a, b, c) | Expr::For(_, a, b, c) => {
            is_expr_built(buffers, a.get())
                && is_expr_built(buffers, b.get())
                && is_expr_built(buffers, c.get())
        }
        Expr::While(a, b) => is_expr_built(buffers, a.get()) && is_expr_built(buffers, b.get()),
        Expr::Do(items, a) => are_items_built(buffers, items.as_slice())
            && is_expr_built(buffers, a.get()),
        Expr::Hide(..) => false,
        Expr::Read(a, b) => buffers
            && is_expr_built(buffers, a.get())
            && is_expr_built(buffers, b.get()),
        Expr::Write(a, b, c) | Expr::Slice(a, b, c) => {
            buffers
                && is_expr_built(buffers, a.get())
                && is_expr_built(buffers, b.get())
                && is_expr_built(buffers, c.get())
        }
        Expr::Frame(slots, a) => buffers && slots.is_empty() && is_expr_built(buffers, a.get()),
        Expr::Alloc(ty, _, a) => buffers
            && is_ty_built(buffers, ty)
            && is_expr_built(buffers, a.get()),
        Expr::Fill(..) => false,
        Expr::Con(..) | Expr::Match(..) | Expr::Cases(_) => false,
        Expr::TagIs(..) | Expr::Part(..) => false,
    }
}

#[cycle(built)]
fn are_exprs_built(buffers: bool, exprs: &[Expr]) -> bool
    ensures { result ≡ all (map (is_expr_built buffers) exprs.now) }
{
    for expr in exprs {
        if !is_expr_built(buffers, expr) {
            return false;
        }
    }
    true
}

#[cycle(built)]
fn is_item_built(buffers: bool, item: &Item) -> bool
    ensures { result ≡ is_item_built buffers item.now }
{
    match item {
        Item::Let(_, ty, value) => is_ty_built(buffers, ty) && is_expr_built(buffers, value),
        Item::Run(value) => is_expr_built(buffers, value),
    }
}

#[cycle(built)]
fn are_items_built(buffers: bool, items: &[Item]) -> bool
    ensures { result ≡ all (map (is_item_built buffers) items.now) }
{
    for item in items {
        if !is_item_built(buffers, item) {
            return false;
        }
    }
    true
}

fn are_fields_built(buffers: bool, fields: &[Field]) -> bool
    ensures { result ≡ are_fields_built buffers fields.now }
{
    fields.iter().all(|field| is_ty_built(buffers, &field.ty))
}

fn is_built(buffers: bool, def: &Def) -> bool
    ensures { result ≡ is_def_built buffers def.now }
{
    match def {
        Def::Struct { vars, fields, .. } => vars.is_empty()
            && are_fields_built(buffers, fields.as_slice()),
        Def::Sum { .. } => false,
        Def::Table { ty, .. } => is_public(*ty),
        Def::Fun {
            vars,
            params,
            result,
            body,
            ..
        } => {
            vars.is_empty()
                && are_fields_built(buffers, params.as_slice())
                && is_ty_built(buffers, result)
                && is_expr_built(buffers, body)
        }
        Def::Entry { .. } => true,
    }
}

/// The place of the first definition of a file that is outside the part of the language that is built, with buffers or without.
pub fn first_unbuilt(buffers: bool, file: &SourceFile) -> Option<usize>
    ensures { result ≡ first_beyond buffers file.now.defs }
{
    let defs = file.defs.as_slice();
    defs.iter().position(|def| !is_built(buffers, def))
}
