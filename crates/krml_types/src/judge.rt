//! What expressions are judged with: names, and types by number.

ghost use Rattle.std.specs.Prelude.{◌≡◌, ℕ, List, [], ◌∷◌, ◌-◌, OnOk, length, take, map, IfOk, Some, None, option_map};
ghost use Rattle.std.specs.Bool.{Decides};
ghost use Rattle.std.specs.Option.{option_copied};
ghost use Rattle.krml_syntax.specs.declared.tree.Ty.{Ty, out-Ty};
ghost use Rattle.krml_syntax.specs.declared.tree.Ty.TheVariants as t;
ghost use Rattle.krml_syntax.specs.Types.{int_ty, is_unit_in, erased, element_of};
ghost use Rattle.krml_ast.specs.Typing.{look, with_vars};
ghost use Rattle.krml_intern.specs.Scope.{are_distinct};
ghost use Rattle.krml_intern.specs.Table.{Table, Means, Grows, head_of};
ghost use Rattle.krml_intern.specs.Unlabelled.{IsErased};
ghost use Rattle.krml_types.specs.Instances.{part_at};
ghost use Rattle.krml_types.specs.Judging.{GivesNumber, IsKnown, IsAt, in_scope, nothing_yet, is_none};
ghost use Rattle.krml_types.specs.Scopes.{cut_scope, with_frame, is_framed, slot_type};
ghost use Rattle.krml_types.specs.Types.{is_flat};

use crate::demands::demand;
use crate::index::Index;
use krml_ast::{Component, Components};
use krml_intern::{Scope, TypeTable};
use krml_syntax::{IntTy, Slot, Ty};
use krml_trace::{Missing, Name, NoMemory};
use std::alloc::Global;
use std::marker::Model;
use std::mem;

/// Where expressions are judged: the types so far by number, with those of the components of definitions that were asked for;
/// the definitions of the file, the type variables of the definition at hand, the variables in scope with the numbers of their
/// types, and the slots of the frame around.
#[derive(Drop)]
pub struct Judge<'n, 'a> {
    index: &'n Index<'a>,
    types: TypeTable<'a>,
    components: Components,
    tvars: &'a [Name],
    scope: Scope<'a>,
    frame: Option<&'a [Slot]>,
}

impl<'n, 'a> Model for Judge<'n, 'a> {
    ghost use Rattle.std.specs.Coded.{codes};
    ghost use Rattle.std.specs.Option.{option_copied};
    ghost use Rattle.krml_syntax.specs.contracts.tree.Ty as ty;
    ghost use Rattle.krml_syntax.specs.contracts.tree.Expr as expr;
    ghost use Rattle.krml_types.specs.Judging.{Around, typed, IsJudge};

    ghost Value = { Around };

    ghost coded = { Prim.hlevel (codes, ty.the_row.coded, expr.the_row.coded) };

    ghost view = { λ s. record {
      table = s.types;
      place = record { defs = s.index.now; tvars = s.tvars.now; scope = record { vars = typed s.types s.scope; frame = option_copied s.frame } };
    } };

    ghost invariant = { λ s. IsJudge s.index.now s.types s.components s.scope };
}

/// A number, where memory was there.
fn given(k: Result<usize, NoMemory>) -> Result<usize, Missing>
    ensures { (t : Table) (a : Ty) → IfOk k (λ n. IsErased t n a) → GivesNumber t result (Some a) }
{
    Ok(k?)
}

impl<'n, 'a> Judge<'n, 'a> {
    /// No types, no type variables, no variables in scope.
    pub fn new(alloc: Global, index: &'n Index<'a>) -> Judge<'n, 'a>
        ensures { result ≡ nothing_yet index.now }
    {
        Judge {
            index,
            types: TypeTable::new(alloc),
            components: Components::new(alloc),
            tvars: &[],
            scope: Scope::new(alloc),
            frame: None,
        }
    }

    /// Goes on to a definition with these type variables, with no variables in scope.
    pub fn begin(&mut self, tvars: &'a [Name])
        ensures place { self.new.place ≡ record { defs = self.old.place.defs; tvars = tvars.now; scope = record { vars = []; frame = None } } }
        ensures table { self.new.table ≡ self.old.table }
    {
        self.tvars = tvars;
        self.scope.cut(0);
        self.frame = None;
    }

    /// The definitions of the file.
    pub fn index(&self) -> &'n Index<'a>
        ensures { result.now ≡ self.now.place.defs }
    {
        self.index
    }

    /// The type variables of the definition at hand.
    pub fn tvars(&self) -> &'a [Name]
        ensures { result.now ≡ self.now.place.tvars }
    {
        self.tvars
    }

    // ---- the scope

    /// How many variables are in scope.
    pub fn len(&self) -> usize
        ensures { result ≡ length self.now.place.scope.vars }
    {
        self.scope.len()
    }

    /// The type of the newest variable of a name.
    pub fn look(&self, x: &Name) -> Result<usize, Missing>
        ensures { GivesNumber self.now.table result (look self.now.place.scope.vars x.now) }
    {
        self.scope.look(x.as_bytes()).ok_or(Missing::Absent)
    }

    /// One more variable, the newest, with the number of its type.
    pub fn push(&mut self, x: &'a Name, k: usize) -> Result<(), NoMemory>
        requires { IsKnown self.old.table k }
        ensures value { OnOk result ((a : Ty) → Means self.old.table k a → self.new.place ≡ in_scope self.old.place (with_vars ((x.now, a) ∷ []) self.old.place.scope)) }
        ensures table { self.new.table ≡ self.old.table }
    {
        self.scope.push(x.as_bytes(), k)?;
        Ok(())
    }

    /// Leaves the oldest variables, so many.
    pub fn cut(&mut self, len: usize)
        ensures place { self.new.place ≡ in_scope self.old.place (cut_scope len self.old.place.scope) }
        ensures table { self.new.table ≡ self.old.table }
    {
        self.scope.cut(len);
    }

    /// Whether no two variables have one name among those that are newer than the oldest ones, so many.
    pub fn are_distinct(&self, len: usize) -> bool
        ensures { result ≡ are_distinct (take (length self.now.place.scope.vars - len) self.now.place.scope.vars) }
    {
        self.scope.are_distinct(len)
    }

    /// Goes into a frame with these slots, or out of all frames. Gives the slots of the frame before.
    pub fn enter(&mut self, frame: Option<&'a [Slot]>) -> Option<&'a [Slot]>
        ensures before { option_copied result ≡ self.old.place.scope.frame }
        ensures place { self.new.place ≡ in_scope self.old.place (with_frame (option_copied frame.entry) self.old.place.scope) }
        ensures table { self.new.table ≡ self.old.table }
    {
        mem::replace(&mut self.frame, frame)
    }

    pub fn is_framed(&self) -> bool
        ensures { result ≡ is_framed self.now.place.scope.frame }
    {
        self.frame.is_some()
    }

    /// The type of the elements of a slot.
    pub fn slot_type(&mut self, k: u32) -> Result<usize, Missing>
        ensures value { GivesNumber self.new.table result (slot_type self.old.place.scope.frame k) }
        ensures place { self.new.place ≡ self.old.place }
        ensures grows { Grows self.old.table self.new.table }
    {
        let Some(slots) = self.frame else {
            return Err(Missing::Absent);
        };
        let Some(slot) = slots.get(k as usize) else {
            return Err(Missing::Absent);
        };
        self.erased(&slot.ty)
    }

    // ---- types

    /// The type `bool`.
    pub fn bool(&mut self) -> Result<usize, Missing>
        ensures value { GivesNumber self.new.table result (Some t.Bool) }
        ensures place { self.new.place ≡ self.old.place }
        ensures grows { Grows self.old.table self.new.table }
    {
        let k = self.types.bool();
        given(k)
    }

    /// The type `unit`.
    pub fn unit(&mut self) -> Result<usize, Missing>
        ensures value { GivesNumber self.new.table result (Some t.Unit) }
        ensures place { self.new.place ≡ self.old.place }
        ensures grows { Grows self.old.table self.new.table }
    {
        let k = self.types.unit();
        given(k)
    }

    /// The public integer type of a width.
    pub fn public(&mut self, i: IntTy) -> Result<usize, Missing>
        ensures value { GivesNumber self.new.table result (Some (int_ty i)) }
        ensures place { self.new.place ≡ self.old.place }
        ensures grows { Grows self.old.table self.new.table }
    {
        let k = self.types.public(i);
        given(k)
    }

    /// The buffers of a type.
    pub fn buf(&mut self, k: usize) -> Result<usize, Missing>
        requires { IsKnown self.old.table k }
        ensures value { (a : Ty) → IsErased self.old.table k a → GivesNumber self.new.table result (Some (t.Buf a)) }
        ensures place { self.new.place ≡ self.old.place }
        ensures grows { Grows self.old.table self.new.table }
    {
        let k = self.types.buf(k);
        given(k)
    }

    /// A type with its labels erased.
    pub fn erased(&mut self, a: &'a Ty) -> Result<usize, Missing>
        ensures value { GivesNumber self.new.table result (Some (erased a.now)) }
        ensures place { self.new.place ≡ self.old.place }
        ensures grows { Grows self.old.table self.new.table }
    {
        let k = self.types.erased(a);
        given(k)
    }

    /// The struct or sum of a name at types with their labels erased.
    pub fn named(&mut self, x: &'a Name, types: &'a [Ty]) -> Result<usize, Missing>
        ensures value { GivesNumber self.new.table result (Some (t.Named x.now (map erased types.now))) }
        ensures place { self.new.place ≡ self.old.place }
        ensures grows { Grows self.old.table self.new.table }
    {
        let k = self.types.named(x, types);
        given(k)
    }

    /// A struct or a sum under another name, at the same type arguments.
    pub fn renamed(&mut self, k: usize, x: &'a Name) -> Result<usize, Missing>
        requires { IsAt self.old.table k }
        ensures value { (y : List ℕ) (args : List Ty) → IsErased self.old.table k (t.Named y args) → GivesNumber self.new.table result (Some (t.Named x.now args)) }
        ensures place { self.new.place ≡ self.old.place }
        ensures grows { Grows self.old.table self.new.table }
    {
        let k = self.types.renamed(k, x);
        given(k)
    }

    /// Whether two numbers are of one type.
    pub fn same(&self, j: usize, k: usize) -> bool
        ensures { (a b : Ty) → IsErased self.now.table j a → IsErased self.now.table k b → Decides result (a ≡ b) }
    {
        self.types.same(j, k)
    }

    /// Whether a type is `unit`.
    pub fn is_unit(&self, k: usize) -> bool
        ensures { (a : Ty) → IsErased self.now.table k a → result ≡ is_unit_in (out-Ty a) }
    {
        self.types.is_unit(k)
    }

    /// Whether a type is one of values and holds no buffer.
    pub fn is_flat(&self, k: usize) -> bool
        ensures { (a : Ty) → IsErased self.now.table k a → result ≡ is_flat self.now.place.defs a }
    {
        if self.types.is_unit(k) || self.types.element(k).is_some() {
            return false;
        }
        match self.types.name_of(k) {
            Some(x) => !self.index.is_holder(x),
            None => true,
        }
    }

    /// The type of the elements of a buffer.
    pub fn element(&self, k: usize) -> Result<usize, Missing>
        ensures { (a : Ty) → IsErased self.now.table k a → GivesNumber self.now.table result (element_of (out-Ty a)) }
    {
        self.types.element(k).ok_or(Missing::Absent)
    }

    /// The name of a struct or a sum.
    pub fn name_of(&self, k: usize) -> Option<&'a Name>
        ensures { (a : Ty) → IsErased self.now.table k a → option_map (λ x. x.now) result ≡ head_of (out-Ty a) }
    {
        self.types.name_of(k)
    }

    // ---- components of definitions

    /// Whether the struct, constructor or function of a name has so many components of a kind at most.
    pub fn ends(&self, kind: Component, k: usize, j: usize) -> bool
        ensures { (x : List ℕ) (args : List Ty) → IsErased self.now.table k (t.Named x args) → result ≡ is_none (part_at self.now.place.defs kind x args j) }
    {
        match self.types.name_of(k) {
            Some(x) => self.index.names().written(kind, x, j).is_none(),
            None => true,
        }
    }

    /// A component of the struct, constructor or function of a name at type arguments. It is computed once.
    pub fn component(&mut self, kind: Component, k: usize, j: usize) -> Result<usize, Missing>
        requires { IsAt self.old.table k }
        ensures value { (x : List ℕ) (args : List Ty) → IsErased self.old.table k (t.Named x args) → GivesNumber self.new.table result (part_at self.old.place.defs kind x args j) }
        ensures place { self.new.place ≡ self.old.place }
        ensures grows { Grows self.old.table self.new.table }
    {
        if let Some(n) = self.components.get(kind, k, j) {
            return Ok(n);
        }
        let n = self.computed(kind, k, j)?;
        match self.components.put(kind, k, j, n) {
            Ok(()) => Ok(n),
            Err(_) => Err(Missing::NoMemory),
        }
    }

    /// The same, computed.
    fn computed(&mut self, kind: Component, k: usize, j: usize) -> Result<usize, Missing>
        requires { IsAt self.old.table k }
        ensures value { (x : List ℕ) (args : List Ty) → IsErased self.old.table k (t.Named x args) → GivesNumber self.new.table result (part_at self.old.place.defs kind x args j) }
        ensures place { self.new.place ≡ self.old.place }
        ensures grows { Grows self.old.table self.new.table }
    {
        let Some(x) = self.types.name_of(k) else {
            return Err(Missing::Absent);
        };
        let Some((vars, ty)) = self.index.names().written(kind, x, j) else {
            return Err(Missing::Absent);
        };
        let args = self.types.arguments(k)?;
        let k = self.types.erased_at(vars, args.as_slice(), ty);
        given(k)
    }
}
