//! The definitions of a file, found by their names.

ghost use Rattle.std.specs.Prelude.{◌≡◌, ℕ, List, IfOk, option_map};
ghost use Rattle.krml_ast.specs.declared.kind.NameKind.{NameKind as Kind};
ghost use Rattle.krml_ast.specs.Names.{vars_named, struct_named, sum_named, con_in, con_named, table_named, fun_named};
ghost use Rattle.krml_ast.specs.Components.{written};
ghost use Rattle.krml_ast.specs.Found.{has_of, struct_def, sum_def, con_def, fun_def};
ghost use Rattle.krml_ast.specs.Places.{place_of, first_of};

use crate::component::Component;
use crate::found::{ConDef, FunDef, StructDef, SumDef};
use crate::kind::NameKind;
use crate::places::Places;
use krml_syntax::{Con, Def, IntTy, Ty};
use krml_trace::{Name, NoMemory};
use std::alloc::Global;
use std::marker::Model;

/// The definitions of a file, found by their names.
#[derive(Drop)]
pub struct Names<'a> {
    defs: &'a [Def],
    places: Places<'a>,
    ghost exact: { (kind : Kind) (x : List ℕ) → has_of kind places x ≡ place_of kind defs.now x },
}

impl<'a> Model for Names<'a> {
    ghost use Rattle.std.specs.Prelude.{List};
    ghost use Rattle.std.specs.Coded.{codes};
    ghost use Rattle.krml_syntax.specs.declared.tree.Def.{Def};
    ghost use Rattle.krml_syntax.specs.contracts.tree.Ty as ty;
    ghost use Rattle.krml_syntax.specs.contracts.tree.Expr as expr;

    ghost Value = { List Def };

    ghost coded = { Prim.hlevel (codes, ty.the_row.coded, expr.the_row.coded) };

    ghost view = { λ s. s.defs.now };
}

impl<'a> Names<'a> {
    /// The definitions of a file, to be found by their names.
    pub fn new(alloc: Global, defs: &'a [Def]) -> Result<Names<'a>, NoMemory>
        ensures { IfOk result (λ r. r ≡ defs.now) }
    {
        let mut places = Places::new(alloc);
        for (k, def) in defs.iter().enumerate() {
            places.add(def, k)?;
        }
        Ok(Names { defs, places })
    }

    /// The definitions.
    pub fn defs(&self) -> &'a [Def]
        ensures { result.now ≡ self.now }
    {
        self.defs
    }

    /// The place of the first definition that gives a name of a kind.
    pub fn place(&self, kind: NameKind, x: &Name) -> Option<usize>
        ensures { result ≡ place_of kind self.now x.now }
    {
        self.places.get(kind, x.as_bytes())
    }

    /// The first definition that gives a name of a kind.
    pub fn first(&self, kind: NameKind, x: &Name) -> Option<&'a Def>
        ensures { option_map (λ def. def.now) result ≡ first_of kind self.now x.now }
    {
        let k = self.place(kind, x)?;
        self.defs.get(k)
    }

    /// The type variables of the struct or sum of a name.
    #[tactic(auto, using(crate::proofs::Firsts::vars_first))]
    pub fn vars_named(&self, x: &Name) -> Option<&'a [Name]>
        ensures { option_map (λ vars. vars.now) result ≡ vars_named self.now x.now }
    {
        match self.first(NameKind::Type, x)? {
            Def::Struct { vars, .. } => Some(vars.as_slice()),
            Def::Sum { vars, .. } => Some(vars.as_slice()),
            _ => None,
        }
    }

    /// The struct of a name.
    #[tactic(auto, using(crate::proofs::Firsts::struct_first))]
    pub fn struct_named(&self, x: &Name) -> Option<StructDef<'a>>
        ensures { option_map struct_def result ≡ struct_named self.now x.now }
    {
        match self.first(NameKind::Type, x)? {
            Def::Struct { vars, fields, .. } => Some(StructDef {
                vars: vars.as_slice(),
                fields: fields.as_slice(),
            }),
            _ => None,
        }
    }

    /// The sum of a name.
    #[tactic(auto, using(crate::proofs::Firsts::sum_first))]
    pub fn sum_named(&self, x: &Name) -> Option<SumDef<'a>>
        ensures { option_map sum_def result ≡ sum_named self.now x.now }
    {
        match self.first(NameKind::Type, x)? {
            Def::Sum { vars, cons, .. } => Some(SumDef {
                vars: vars.as_slice(),
                cons: cons.as_slice(),
            }),
            _ => None,
        }
    }

    /// The constructor of a name.
    #[tactic(auto, using(crate::proofs::Firsts::con_first))]
    pub fn con_named(&self, x: &Name) -> Option<ConDef<'a>>
        ensures { option_map con_def result ≡ con_named self.now x.now }
    {
        match self.first(NameKind::Con, x)? {
            Def::Sum { name, vars, cons } => {
                let args = args_in(cons.as_slice(), x)?;
                Some(ConDef {
                    sum: name,
                    vars: vars.as_slice(),
                    args,
                })
            }
            _ => None,
        }
    }

    /// The type of the numbers in the table of a name.
    #[tactic(auto, using(crate::proofs::Firsts::table_first))]
    pub fn table_named(&self, x: &Name) -> Option<IntTy>
        ensures { result ≡ table_named self.now x.now }
    {
        match self.first(NameKind::Table, x)? {
            Def::Table { ty, .. } => Some(*ty),
            _ => None,
        }
    }

    /// The function of a name.
    #[tactic(auto, using(crate::proofs::Firsts::fun_first))]
    pub fn fun_named(&self, x: &Name) -> Option<FunDef<'a>>
        ensures { option_map fun_def result ≡ fun_named self.now x.now }
    {
        match self.first(NameKind::Fun, x)? {
            Def::Fun {
                vars,
                params,
                result,
                ..
            } => Some(FunDef {
                vars: vars.as_slice(),
                params: params.as_slice(),
                result,
            }),
            _ => None,
        }
    }

    /// The type variables of the struct, constructor or function of a name, and a type that it writes, by its place among those
    /// of a kind.
    pub fn written(&self, kind: Component, x: &Name, j: usize) -> Option<(&'a [Name], &'a Ty)>
        ensures { option_map (λ w. (w.0.now, w.1.now)) result ≡ written self.now kind x.now j }
    {
        match kind {
            Component::Field => {
                let def = self.struct_named(x)?;
                let field = def.fields.get(j)?;
                Some((def.vars, &field.ty))
            }
            Component::Argument => {
                let def = self.con_named(x)?;
                let ty = def.args.get(j)?;
                Some((def.vars, ty))
            }
            Component::Parameter => {
                let def = self.fun_named(x)?;
                let param = def.params.get(j)?;
                Some((def.vars, &param.ty))
            }
            Component::Result => {
                let def = self.fun_named(x)?;
                Some((def.vars, def.result))
            }
        }
    }
}

/// The types of the arguments of the constructor of a name.
fn args_in<'a>(cons: &'a [Con], x: &Name) -> Option<&'a [Ty]>
    ensures { option_map (λ args. args.now) result ≡ con_in cons.now x.now }
{
    for con in cons {
        if con.name.is(x) {
            return Some(con.args.as_slice());
        }
    }
    None
}
