//! Patterns at a type, and the variables that they bind.

ghost use Rattle.std.specs.Prelude.{◌≡◌, List, ◌∷◌, OnOk, Some, map};
ghost use Rattle.krml_syntax.specs.declared.tree.Ty.{Ty};
ghost use Rattle.krml_syntax.specs.declared.tree.Ty.TheVariants.{Bool};
ghost use Rattle.krml_syntax.specs.Types.{int_ty};
ghost use Rattle.krml_intern.specs.Table.{Grows};
ghost use Rattle.krml_intern.specs.Unlabelled.{IsErased};
ghost use Rattle.krml_trace.specs.Gives.{Gives};
ghost use Rattle.krml_types.specs.Judging.{IsKnown, IsAt, AreParts, Binds};
ghost use Rattle.krml_types.specs.Parts.{demand};
ghost use Rattle.krml_types.specs.Patterns.{binds, parts_bind};
ghost use Rattle.krml_types.specs.Types.{same_ty};

use crate::demands::demand;
use crate::judge::Judge;
use krml_ast::Component;
use krml_syntax::{IntTy, Pat};
use krml_trace::{Missing, Name};

impl<'n, 'a> Judge<'n, 'a> {
    /// The type is `bool`.
    pub fn is_bool(&mut self, k: usize) -> Result<(), Missing>
        ensures value { (a : Ty) → IsErased self.old.table k a → Gives result (demand (same_ty a Bool)) }
        ensures place { self.new.place ≡ self.old.place }
        ensures grows { Grows self.old.table self.new.table }
    {
        let j = self.bool()?;
        demand(self.same(k, j))
    }

    /// The type is the integer type, without its label.
    pub fn is_int(&mut self, k: usize, i: IntTy) -> Result<(), Missing>
        ensures value { (a : Ty) → IsErased self.old.table k a → Gives result (demand (same_ty a (int_ty i))) }
        ensures place { self.new.place ≡ self.old.place }
        ensures grows { Grows self.old.table self.new.table }
    {
        let j = self.public(i)?;
        demand(self.same(k, j))
    }

    /// Adds a variable of a pattern. An error is want of memory.
    fn bound(&mut self, x: &'a Name, k: usize) -> Result<(), Missing>
        requires { IsKnown self.old.table k }
        ensures value { (a : Ty) → IsErased self.old.table k a → Binds result (Some ((x.now, a) ∷ self.old.place.scope.vars)) self.old.place self.new.place }
        ensures table { self.new.table ≡ self.old.table }
    {
        match self.push(x, k) {
            Ok(()) => Ok(()),
            Err(_) => Err(Missing::NoMemory),
        }
    }

    /// Adds the variables that a pattern binds at a place of a type.
    #[cycle(pattern)]
    pub fn bind(&mut self, pat: &'a Pat, k: usize) -> Result<(), Missing>
        requires { IsKnown self.old.table k }
        ensures value { (a : Ty) → IsErased self.old.table k a → Binds result (binds self.old.place.defs pat.now a self.old.place.scope.vars) self.old.place self.new.place }
        ensures grows { OnOk result (Grows self.old.table self.new.table) }
    {
        match pat {
            Pat::Any => Ok(()),
            Pat::Bind(x) => self.bound(x, k),
            Pat::Bool(_) => self.is_bool(k),
            Pat::Num(i, n) => {
                demand(i.width.fits(*n))?;
                self.is_int(k, *i)
            }
            Pat::Con(x, pats) => {
                let k = self.con_parts(x, k)?;
                self.bind_parts(pats.as_slice(), Component::Argument, k)
            }
            Pat::Make(x, pats) => {
                let k = self.make_parts(x, k)?;
                self.bind_parts(pats.as_slice(), Component::Field, k)
            }
        }
    }

    /// The same of patterns, one for each component.
    #[cycle(pattern)]
    fn bind_parts(&mut self, pats: &'a [Pat], kind: Component, k: usize) -> Result<(), Missing>
        requires { IsAt self.old.table k }
        ensures value { (types : List Ty) → AreParts self.old.table self.old.place.defs kind k types → Binds result (parts_bind (map (binds self.old.place.defs) pats.now) types self.old.place.scope.vars) self.old.place self.new.place }
        ensures grows { OnOk result (Grows self.old.table self.new.table) }
    {
        for (j, pat) in pats.iter().enumerate() {
            let part = self.component(kind, k, j)?;
            self.bind(pat, part)?;
        }
        demand(self.ends(kind, k, pats.len()))
    }
}
