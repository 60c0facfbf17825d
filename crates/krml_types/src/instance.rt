//! Structs, constructors and functions at type arguments, by numbers of types.

ghost use Rattle.std.specs.Prelude.{◌≡◌, option_map};
ghost use Rattle.krml_syntax.specs.declared.tree.Ty.{Ty, out-Ty};
ghost use Rattle.krml_ast.specs.Names.{field_named};
ghost use Rattle.krml_ast.specs.declared.kind.NameKind.{NameKind};
ghost use Rattle.krml_intern.specs.Table.{Grows};
ghost use Rattle.krml_intern.specs.Unlabelled.{IsErased};
ghost use Rattle.krml_types.specs.Instances.{serve, make_at, con_at, call_at, field_type, make_parts, con_parts, part_type, tag_type};
ghost use Rattle.krml_types.specs.Judging.{IsKnown, GivesNumber, GivesApplied, GivesParts, place_in};

use crate::applied::Applied;
use crate::demands::demand;
use crate::formed::are_arguments;
use crate::index::Index;
use crate::judge::Judge;
use krml_ast::Component;
use krml_syntax::{Field, Ty};
use krml_trace::{Missing, Name};

/// Type arguments serve for type variables.
fn serve(index: &Index<'_>, tvars: &[Name], vars: &[Name], args: &[Ty]) -> bool
    ensures { result ≡ serve index.now tvars.now vars.now args.now }
{
    args.len() == vars.len() && are_arguments(index, tvars, args)
}

/// The place of the first field of a name.
fn place_in(fields: &[Field], y: &Name) -> Option<usize>
    ensures { result ≡ place_in fields.now y.now }
{
    for (j, field) in fields.iter().enumerate() {
        if field.name.is(y) {
            return Some(j);
        }
    }
    None
}

impl<'n, 'a> Judge<'n, 'a> {
    /// A struct at type arguments.
    pub fn make_at(&mut self, x: &'a Name, args: &'a [Ty]) -> Result<Applied, Missing>
        ensures value { GivesApplied self.new.table self.old.place.defs result (make_at self.old.place.defs self.old.place.tvars x.now args.now) }
        ensures place { self.new.place ≡ self.old.place }
        ensures grows { Grows self.old.table self.new.table }
    {
        let Some(def) = self.index().names().struct_named(x) else {
            return Err(Missing::Absent);
        };
        demand(serve(self.index(), self.tvars(), def.vars, args))?;
        let k = self.named(x, args)?;
        Ok(Applied {
            kind: Component::Field,
            takes: k,
            gives: k,
        })
    }

    /// A constructor at the type arguments of its sum.
    pub fn con_at(&mut self, x: &'a Name, args: &'a [Ty]) -> Result<Applied, Missing>
        ensures value { GivesApplied self.new.table self.old.place.defs result (con_at self.old.place.defs self.old.place.tvars x.now args.now) }
        ensures place { self.new.place ≡ self.old.place }
        ensures grows { Grows self.old.table self.new.table }
    {
        let Some(def) = self.index().names().con_named(x) else {
            return Err(Missing::Absent);
        };
        demand(serve(self.index(), self.tvars(), def.vars, args))?;
        let takes = self.named(x, args)?;
        let gives = self.renamed(takes, def.sum)?;
        Ok(Applied {
            kind: Component::Argument,
            takes,
            gives,
        })
    }

    /// A function at type arguments.
    pub fn call_at(&mut self, x: &'a Name, args: &'a [Ty]) -> Result<Applied, Missing>
        ensures value { GivesApplied self.new.table self.old.place.defs result (call_at self.old.place.defs self.old.place.tvars x.now args.now) }
        ensures place { self.new.place ≡ self.old.place }
        ensures grows { Grows self.old.table self.new.table }
    {
        let Some(def) = self.index().names().fun_named(x) else {
            return Err(Missing::Absent);
        };
        demand(serve(self.index(), self.tvars(), def.vars, args))?;
        let takes = self.named(x, args)?;
        let gives = self.component(Component::Result, takes, 0)?;
        Ok(Applied {
            kind: Component::Parameter,
            takes,
            gives,
        })
    }

    /// The type of a field of a value.
    pub fn field_type(&mut self, y: &Name, k: usize) -> Result<usize, Missing>
        requires { IsKnown self.old.table k }
        ensures value { (a : Ty) → IsErased self.old.table k a → GivesNumber self.new.table result (field_type self.old.place.defs y.now a) }
        ensures place { self.new.place ≡ self.old.place }
        ensures grows { Grows self.old.table self.new.table }
    {
        let Some(x) = self.name_of(k) else {
            return Err(Missing::Absent);
        };
        let Some(def) = self.index().names().struct_named(x) else {
            return Err(Missing::Absent);
        };
        let Some(j) = place_in(def.fields, y) else {
            return Err(Missing::Absent);
        };
        self.component(Component::Field, k, j)
    }

    /// The number at which the fields of the struct of a name are found, at the type arguments of a type.
    pub fn make_parts(&self, x: &Name, k: usize) -> Result<usize, Missing>
        ensures { (a : Ty) → IsErased self.now.table k a → GivesParts self.now.table self.now.place.defs Component.Field result (make_parts self.now.place.defs x.now a) }
    {
        if self.index().names().struct_named(x).is_none() {
            return Err(Missing::Absent);
        }
        match self.name_of(k) {
            Some(y) if y.is(x) => Ok(k),
            _ => Err(Missing::Absent),
        }
    }

    /// The number at which the arguments of a constructor are found, at the type arguments of a type.
    pub fn con_parts(&mut self, x: &'a Name, k: usize) -> Result<usize, Missing>
        requires { IsKnown self.old.table k }
        ensures value { (a : Ty) → IsErased self.old.table k a → GivesParts self.new.table self.old.place.defs Component.Argument result (con_parts self.old.place.defs x.now a) }
        ensures place { self.new.place ≡ self.old.place }
        ensures grows { Grows self.old.table self.new.table }
    {
        let Some(def) = self.index().names().con_named(x) else {
            return Err(Missing::Absent);
        };
        match self.name_of(k) {
            Some(y) if y.is(def.sum) => self.renamed(k, x),
            _ => Err(Missing::Absent),
        }
    }

    /// The type of an argument of a constructor.
    pub fn part_type(&mut self, x: &'a Name, j: u32, k: usize) -> Result<usize, Missing>
        requires { IsKnown self.old.table k }
        ensures value { (a : Ty) → IsErased self.old.table k a → GivesNumber self.new.table result (part_type self.old.place.defs x.now j a) }
        ensures place { self.new.place ≡ self.old.place }
        ensures grows { Grows self.old.table self.new.table }
    {
        let k = self.con_parts(x, k)?;
        self.component(Component::Argument, k, j as usize)
    }

    /// The type of the test whether a value is of a constructor.
    pub fn tag_type(&mut self, x: &Name, k: usize) -> Result<usize, Missing>
        ensures value { (a : Ty) → IsErased self.old.table k a → GivesNumber self.new.table result (tag_type self.old.place.defs x.now a) }
        ensures place { self.new.place ≡ self.old.place }
        ensures grows { Grows self.old.table self.new.table }
    {
        let Some(def) = self.index().names().con_named(x) else {
            return Err(Missing::Absent);
        };
        match self.name_of(k) {
            Some(y) if y.is(def.sum) => self.bool(),
            _ => Err(Missing::Absent),
        }
    }
}
