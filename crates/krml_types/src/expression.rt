//! The types of expressions.

ghost use Rattle.std.specs.Prelude.{◌≡◌, List, Option, OnOk, map, Some, None};
ghost use Rattle.krml_syntax.specs.declared.tree.Ty.{Ty, out-Ty};
ghost use Rattle.krml_syntax.specs.declared.tree.Ty.TheVariants.{Bool, Unit, Buf};
ghost use Rattle.krml_syntax.specs.Types.{int_ty};
ghost use Rattle.krml_ast.specs.Names.{table_named};
ghost use Rattle.krml_intern.specs.Table.{Grows};
ghost use Rattle.krml_intern.specs.Unlabelled.{IsErased};
ghost use Rattle.krml_trace.specs.Gives.{Gives};
ghost use Rattle.krml_types.specs.Instances.{Instance};
ghost use Rattle.krml_types.specs.Judging.{GivesNumber, IsNumberOf, IsKnown, IsAt, AreParts, AreApplied, Leads};
ghost use Rattle.krml_types.specs.Expressions.{has, one_type, each_has, apply_type, are_tests, num_type, joined, may_alloc, items_from, arms_from, cases_from, binary_step, unary_step, flow_step, loop_step, access_step, frame_step, applied_step, part_step, turn_type, type_of, item_of, arm_of, case_of, layer_of, is_result};

use crate::applied::Applied;
use crate::demands::demand;
use crate::formed::{is_flat, is_type, is_unit};
use crate::judge::Judge;
use krml_ast::Component;
use krml_syntax::{Arm, Case, Expr, IntTy, Item, Ty};
use krml_trace::{MAX_ELEMENTS, Missing, Name, Width};

/// The type of indices and lengths.
const U32: IntTy = IntTy {
    width: Width::W32,
    secret: false,
};

impl<'n, 'a> Judge<'n, 'a> {
    /// The type of an expression where it stands.
    #[cycle(check)]
    pub fn type_of(&mut self, e: &'a Expr) -> Result<usize, Missing>
        ensures value { GivesNumber self.new.table result (type_of self.old.place.defs self.old.place.tvars e.now self.old.place.scope) }
        ensures place { OnOk result (self.new.place ≡ self.old.place) }
        ensures grows { OnOk result (Grows self.old.table self.new.table) }
    {
        match e {
            Expr::Var(x) => self.look(x),
            Expr::Unit => self.unit(),
            Expr::Bool(_) => self.bool(),
            Expr::Num(i, n) => self.number(*i, *n),
            Expr::Bin(..) | Expr::Shift(..) | Expr::Cmp(..) => self.binary(e),
            Expr::Not(_) | Expr::Cast(..) | Expr::Hide(..) | Expr::Tab(..) => self.unary(e),
            Expr::If(..) | Expr::Match(..) | Expr::Do(..) | Expr::Cases(_) => self.flow(e),
            Expr::While(..) | Expr::For(..) => self.repeated(e),
            Expr::Read(..) | Expr::Write(..) | Expr::Slice(..) => self.access(e),
            Expr::Frame(..) | Expr::Alloc(..) | Expr::Fill(..) => self.framed(e),
            Expr::Make(..) | Expr::Con(..) | Expr::Call(..) => self.applied(e),
            Expr::Get(..) | Expr::TagIs(..) | Expr::Part(..) => self.part(e),
        }
    }

    /// An operation on two numbers.
    #[cycle(check)]
    fn binary(&mut self, e: &'a Expr) -> Result<usize, Missing>
        ensures value { GivesNumber self.new.table result (binary_step (layer_of self.old.place.defs self.old.place.tvars e.now) self.old.place.scope) }
        ensures place { OnOk result (self.new.place ≡ self.old.place) }
        ensures grows { OnOk result (Grows self.old.table self.new.table) }
    {
        match e {
            Expr::Bin(_, i, a, b) => {
                self.has_int(a.get(), *i)?;
                self.has_int(b.get(), *i)?;
                self.public(*i)
            }
            Expr::Shift(_, i, a, n) => {
                self.has_int(a.get(), *i)?;
                self.has_int(n.get(), U32)?;
                self.public(*i)
            }
            Expr::Cmp(_, i, a, b) => {
                self.has_int(a.get(), *i)?;
                self.has_int(b.get(), *i)?;
                self.bool()
            }
            _ => Err(Missing::Absent),
        }
    }

    /// An operation on one number or truth value.
    #[cycle(check)]
    fn unary(&mut self, e: &'a Expr) -> Result<usize, Missing>
        ensures value { GivesNumber self.new.table result (unary_step self.old.place.defs (layer_of self.old.place.defs self.old.place.tvars e.now) self.old.place.scope) }
        ensures place { OnOk result (self.new.place ≡ self.old.place) }
        ensures grows { OnOk result (Grows self.old.table self.new.table) }
    {
        match e {
            Expr::Not(a) => {
                self.has_bool(a.get())?;
                self.bool()
            }
            Expr::Cast(i, j, a) => {
                self.has_int(a.get(), *i)?;
                self.public(*j)
            }
            Expr::Hide(i, a) => {
                self.has_int(a.get(), *i)?;
                self.public(*i)
            }
            Expr::Tab(x, a) => {
                let i = self.table(x)?;
                self.has_int(a.get(), U32)?;
                self.public(i)
            }
            _ => Err(Missing::Absent),
        }
    }

    /// Branches, or a block.
    #[cycle(check)]
    fn flow(&mut self, e: &'a Expr) -> Result<usize, Missing>
        ensures value { GivesNumber self.new.table result (flow_step (layer_of self.old.place.defs self.old.place.tvars e.now) self.old.place.scope) }
        ensures place { OnOk result (self.new.place ≡ self.old.place) }
        ensures grows { OnOk result (Grows self.old.table self.new.table) }
    {
        match e {
            Expr::If(c, a, b) => {
                self.has_bool(c.get())?;
                let k = self.type_of(a.get())?;
                self.has(b.get(), k)?;
                Ok(k)
            }
            Expr::Match(a, arms) => {
                let k = self.type_of(a.get())?;
                demand(!self.is_unit(k))?;
                self.arms(arms.as_slice(), k)
            }
            Expr::Do(items, a) => {
                let before = self.len();
                self.items(items.as_slice())?;
                let k = self.type_of(a.get())?;
                self.cut(before);
                Ok(k)
            }
            Expr::Cases(cases) => self.cases(cases.as_slice()),
            _ => Err(Missing::Absent),
        }
    }

    /// A loop.
    #[cycle(check)]
    fn repeated(&mut self, e: &'a Expr) -> Result<usize, Missing>
        ensures value { GivesNumber self.new.table result (loop_step (layer_of self.old.place.defs self.old.place.tvars e.now) self.old.place.scope) }
        ensures place { OnOk result (self.new.place ≡ self.old.place) }
        ensures grows { OnOk result (Grows self.old.table self.new.table) }
    {
        match e {
            Expr::While(c, a) => {
                let around = self.enter(None);
                self.has_bool(c.get())?;
                self.has_unit(a.get())?;
                let _ = self.enter(around);
                self.unit()
            }
            Expr::For(x, a, b, c) => {
                self.has_int(a.get(), U32)?;
                self.has_int(b.get(), U32)?;
                self.turn(c.get(), x)
            }
            _ => Err(Missing::Absent),
        }
    }

    /// What is done with a buffer.
    #[cycle(check)]
    fn access(&mut self, e: &'a Expr) -> Result<usize, Missing>
        ensures value { GivesNumber self.new.table result (access_step (layer_of self.old.place.defs self.old.place.tvars e.now) self.old.place.scope) }
        ensures place { OnOk result (self.new.place ≡ self.old.place) }
        ensures grows { OnOk result (Grows self.old.table self.new.table) }
    {
        match e {
            Expr::Read(a, i) => {
                let k = self.type_of(a.get())?;
                self.has_int(i.get(), U32)?;
                self.element(k)
            }
            Expr::Write(a, i, v) => {
                let k = self.type_of(a.get())?;
                self.has_int(i.get(), U32)?;
                let element = self.element(k)?;
                self.has(v.get(), element)?;
                self.unit()
            }
            Expr::Slice(a, i, n) => {
                let k = self.type_of(a.get())?;
                self.has_int(i.get(), U32)?;
                let element = self.element(k)?;
                self.has_int(n.get(), U32)?;
                self.buf(element)
            }
            _ => Err(Missing::Absent),
        }
    }

    /// A frame, or a buffer that is made in one.
    #[cycle(check)]
    fn framed(&mut self, e: &'a Expr) -> Result<usize, Missing>
        ensures value { GivesNumber self.new.table result (frame_step self.old.place.defs self.old.place.tvars (layer_of self.old.place.defs self.old.place.tvars e.now) self.old.place.scope) }
        ensures place { OnOk result (self.new.place ≡ self.old.place) }
        ensures grows { OnOk result (Grows self.old.table self.new.table) }
    {
        match e {
            Expr::Frame(slots, a) => {
                let around = self.enter(Some(slots.as_slice()));
                let k = self.type_of(a.get())?;
                let _ = self.enter(around);
                demand(self.is_result(k))?;
                Ok(k)
            }
            Expr::Alloc(b, n, a) => {
                demand(self.is_framed() && self.may_alloc(b, *n))?;
                let element = self.erased(b)?;
                self.filled(a.get(), element)
            }
            Expr::Fill(k, a) => {
                let element = self.slot_type(*k)?;
                self.filled(a.get(), element)
            }
            _ => Err(Missing::Absent),
        }
    }

    /// A value of a struct or a sum, or a call.
    #[cycle(check)]
    fn applied(&mut self, e: &'a Expr) -> Result<usize, Missing>
        ensures value { GivesNumber self.new.table result (applied_step self.old.place.defs self.old.place.tvars (layer_of self.old.place.defs self.old.place.tvars e.now) self.old.place.scope) }
        ensures place { OnOk result (self.new.place ≡ self.old.place) }
        ensures grows { OnOk result (Grows self.old.table self.new.table) }
    {
        match e {
            Expr::Make(x, args, es) => {
                let at = self.make_at(x, args.as_slice())?;
                self.apply(es.as_slice(), at)
            }
            Expr::Con(x, args, es) => {
                let at = self.con_at(x, args.as_slice())?;
                self.apply(es.as_slice(), at)
            }
            Expr::Call(x, args, es) => {
                let at = self.call_at(x, args.as_slice())?;
                self.apply(es.as_slice(), at)
            }
            _ => Err(Missing::Absent),
        }
    }

    /// A part of a struct or a sum.
    #[cycle(check)]
    fn part(&mut self, e: &'a Expr) -> Result<usize, Missing>
        ensures value { GivesNumber self.new.table result (part_step self.old.place.defs (layer_of self.old.place.defs self.old.place.tvars e.now) self.old.place.scope) }
        ensures place { OnOk result (self.new.place ≡ self.old.place) }
        ensures grows { OnOk result (Grows self.old.table self.new.table) }
    {
        match e {
            Expr::Get(y, a) => {
                let k = self.type_of(a.get())?;
                self.field_type(y, k)
            }
            Expr::TagIs(x, a) => {
                let k = self.type_of(a.get())?;
                self.tag_type(x, k)
            }
            Expr::Part(x, j, a) => {
                let k = self.type_of(a.get())?;
                self.part_type(x, *j, k)
            }
            _ => Err(Missing::Absent),
        }
    }

    /// The expression has the type.
    #[cycle(check)]
    fn has(&mut self, e: &'a Expr, k: usize) -> Result<(), Missing>
        ensures value { (a : Ty) → IsErased self.old.table k a → Gives result (has (type_of self.old.place.defs self.old.place.tvars e.now) a self.old.place.scope) }
        ensures place { OnOk result (self.new.place ≡ self.old.place) }
        ensures grows { OnOk result (Grows self.old.table self.new.table) }
    {
        let j = self.type_of(e)?;
        demand(self.same(j, k))
    }

    /// The expression is a truth value.
    #[cycle(check)]
    fn has_bool(&mut self, e: &'a Expr) -> Result<(), Missing>
        ensures value { Gives result (has (type_of self.old.place.defs self.old.place.tvars e.now) Bool self.old.place.scope) }
        ensures place { OnOk result (self.new.place ≡ self.old.place) }
        ensures grows { OnOk result (Grows self.old.table self.new.table) }
    {
        let k = self.type_of(e)?;
        self.is_bool(k)
    }

    /// The expression gives nothing.
    #[cycle(check)]
    fn has_unit(&mut self, e: &'a Expr) -> Result<(), Missing>
        ensures value { Gives result (has (type_of self.old.place.defs self.old.place.tvars e.now) Unit self.old.place.scope) }
        ensures place { OnOk result (self.new.place ≡ self.old.place) }
        ensures grows { OnOk result (Grows self.old.table self.new.table) }
    {
        let k = self.type_of(e)?;
        demand(self.is_unit(k))
    }

    /// The expression has the integer type, without its label.
    #[cycle(check)]
    fn has_int(&mut self, e: &'a Expr, i: IntTy) -> Result<(), Missing>
        ensures value { Gives result (has (type_of self.old.place.defs self.old.place.tvars e.now) (int_ty i) self.old.place.scope) }
        ensures place { OnOk result (self.new.place ≡ self.old.place) }
        ensures grows { OnOk result (Grows self.old.table self.new.table) }
    {
        let k = self.type_of(e)?;
        self.is_int(k, i)
    }

    /// A first element gives a buffer.
    #[cycle(check)]
    fn filled(&mut self, e: &'a Expr, element: usize) -> Result<usize, Missing>
        requires { IsKnown self.old.table element }
        ensures value { (a : Ty) → IsErased self.old.table element a → GivesNumber self.new.table result (one_type (type_of self.old.place.defs self.old.place.tvars e.now) a (Buf a) self.old.place.scope) }
        ensures place { OnOk result (self.new.place ≡ self.old.place) }
        ensures grows { OnOk result (Grows self.old.table self.new.table) }
    {
        self.has(e, element)?;
        self.buf(element)
    }

    /// Operands of the types that an instance takes give what it gives.
    #[cycle(check)]
    fn apply(&mut self, es: &'a [Expr], at: Applied) -> Result<usize, Missing>
        requires { IsAt self.old.table at.takes }
        ensures value { (i : Instance) → AreApplied self.old.table self.old.place.defs at i → GivesNumber self.new.table result (apply_type (map (type_of self.old.place.defs self.old.place.tvars) es.now) (Some i) self.old.place.scope) }
        ensures place { OnOk result (self.new.place ≡ self.old.place) }
        ensures grows { OnOk result (Grows self.old.table self.new.table) }
    {
        self.each_has(es, at.kind, at.takes)?;
        Ok(at.gives)
    }

    /// Each expression has the type of its component.
    #[cycle(check)]
    fn each_has(&mut self, es: &'a [Expr], kind: Component, k: usize) -> Result<(), Missing>
        requires { IsAt self.old.table k }
        ensures value { (types : List Ty) → AreParts self.old.table self.old.place.defs kind k types → Gives result (each_has (map (type_of self.old.place.defs self.old.place.tvars) es.now) types self.old.place.scope) }
        ensures place { OnOk result (self.new.place ≡ self.old.place) }
        ensures grows { OnOk result (Grows self.old.table self.new.table) }
    {
        for (j, e) in es.iter().enumerate() {
            let part = self.component(kind, k, j)?;
            self.has(e, part)?;
        }
        demand(self.ends(kind, k, es.len()))
    }

    /// The body of a `for` over a variable.
    #[cycle(check)]
    fn turn(&mut self, e: &'a Expr, x: &'a Name) -> Result<usize, Missing>
        ensures value { GivesNumber self.new.table result (turn_type x.now (type_of self.old.place.defs self.old.place.tvars e.now) self.old.place.scope) }
        ensures place { OnOk result (self.new.place ≡ self.old.place) }
        ensures grows { OnOk result (Grows self.old.table self.new.table) }
    {
        let around = self.enter(None);
        let before = self.len();
        let k = self.public(U32)?;
        self.push(x, k)?;
        self.has_unit(e)?;
        self.cut(before);
        let _ = self.enter(around);
        self.unit()
    }

    /// The one type of the branches of a match on a value of a type.
    #[cycle(check)]
    fn arms(&mut self, arms: &'a [Arm], k: usize) -> Result<usize, Missing>
        requires { IsKnown self.old.table k }
        ensures value { (s : Ty) → IsErased self.old.table k s → GivesNumber self.new.table result (arms_from (map (arm_of self.old.place.defs self.old.place.tvars) arms.now) s self.old.place.scope None) }
        ensures place { OnOk result (self.new.place ≡ self.old.place) }
        ensures grows { OnOk result (Grows self.old.table self.new.table) }
    {
        let mut found = None;
        for arm in arms {
            let j = self.arm(arm, k)?;
            found = Some(self.joined(found, j)?);
        }
        found.ok_or(Missing::Absent)
    }

    #[cycle(check)]
    fn arm(&mut self, arm: &'a Arm, k: usize) -> Result<usize, Missing>
        requires { IsKnown self.old.table k }
        ensures value { (s : Ty) → IsErased self.old.table k s → GivesNumber self.new.table result (arm_of self.old.place.defs self.old.place.tvars arm.now s self.old.place.scope) }
        ensures place { OnOk result (self.new.place ≡ self.old.place) }
        ensures grows { OnOk result (Grows self.old.table self.new.table) }
    {
        let before = self.len();
        self.bind(&arm.pat, k)?;
        demand(self.are_distinct(before))?;
        let j = self.type_of(&arm.body)?;
        self.cut(before);
        Ok(j)
    }

    /// Into the scope behind the items.
    #[cycle(check)]
    fn items(&mut self, items: &'a [Item]) -> Result<(), Missing>
        ensures value { Leads result (items_from (map (item_of self.old.place.defs self.old.place.tvars) items.now) self.old.place.scope) self.old.place self.new.place }
        ensures grows { OnOk result (Grows self.old.table self.new.table) }
    {
        for item in items {
            self.item(item)?;
        }
        Ok(())
    }

    #[cycle(check)]
    fn item(&mut self, item: &'a Item) -> Result<(), Missing>
        ensures value { Leads result (item_of self.old.place.defs self.old.place.tvars item.now self.old.place.scope) self.old.place self.new.place }
        ensures grows { OnOk result (Grows self.old.table self.new.table) }
    {
        match item {
            Item::Let(x, b, a) => {
                demand(is_type(self.index(), self.tvars(), b) && !is_unit(b))?;
                let k = self.erased(b)?;
                self.has(a, k)?;
                self.push(x, k)?;
                Ok(())
            }
            Item::Run(a) => self.has_unit(a),
        }
    }

    /// The one type of cases.
    #[cycle(check)]
    fn cases(&mut self, cases: &'a [Case]) -> Result<usize, Missing>
        ensures value { GivesNumber self.new.table result (cases_from (map (case_of self.old.place.defs self.old.place.tvars) cases.now) self.old.place.scope None) }
        ensures place { OnOk result (self.new.place ≡ self.old.place) }
        ensures grows { OnOk result (Grows self.old.table self.new.table) }
    {
        let mut found = None;
        for case in cases {
            let j = self.case(case)?;
            found = Some(self.joined(found, j)?);
        }
        found.ok_or(Missing::Absent)
    }

    #[cycle(check)]
    fn case(&mut self, case: &'a Case) -> Result<usize, Missing>
        ensures value { GivesNumber self.new.table result (case_of self.old.place.defs self.old.place.tvars case.now self.old.place.scope) }
        ensures place { OnOk result (self.new.place ≡ self.old.place) }
        ensures grows { OnOk result (Grows self.old.table self.new.table) }
    {
        self.are_tests(case.tests.as_slice())?;
        self.type_of(&case.body)
    }

    #[cycle(check)]
    fn are_tests(&mut self, tests: &'a [Expr]) -> Result<(), Missing>
        ensures value { Gives result (are_tests (map (type_of self.old.place.defs self.old.place.tvars) tests.now) self.old.place.scope) }
        ensures place { OnOk result (self.new.place ≡ self.old.place) }
        ensures grows { OnOk result (Grows self.old.table self.new.table) }
    {
        for test in tests {
            self.has_bool(test)?;
        }
        Ok(())
    }

    /// The type of the numbers of a table.
    fn table(&self, x: &Name) -> Result<IntTy, Missing>
        ensures { Gives result (table_named self.now.place.defs x.now) }
    {
        self.index().names().table_named(x).ok_or(Missing::Absent)
    }

    /// A buffer of so many elements of a type may be made.
    fn may_alloc(&self, b: &Ty, n: u32) -> bool
        ensures { result ≡ may_alloc self.now.place.defs self.now.place.tvars b.now n }
    {
        is_type(self.index(), self.tvars(), b)
            && is_flat(self.index(), b)
            && 1 <= n
            && n <= MAX_ELEMENTS
    }

    /// A function or a frame may give values of a type.
    fn is_result(&self, k: usize) -> bool
        ensures { (a : Ty) → IsErased self.now.table k a → result ≡ is_result self.now.place.defs a }
    {
        self.is_unit(k) || self.is_flat(k)
    }

    fn number(&mut self, i: IntTy, n: u64) -> Result<usize, Missing>
        ensures value { GivesNumber self.new.table result (num_type i n) }
        ensures place { self.new.place ≡ self.old.place }
        ensures grows { Grows self.old.table self.new.table }
    {
        demand(i.width.fits(n))?;
        self.public(i)
    }

    /// The one type of the branches so far and of another.
    fn joined(&self, found: Option<usize>, k: usize) -> Result<usize, Missing>
        ensures { (r : Option Ty) (a : Ty) → IsNumberOf self.now.table found r → IsErased self.now.table k a → GivesNumber self.now.table result (joined r a) }
    {
        match found {
            None => Ok(k),
            Some(j) => {
                demand(self.same(k, j))?;
                Ok(j)
            }
        }
    }
}
