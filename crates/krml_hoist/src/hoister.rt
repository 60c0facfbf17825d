//! The walk that lists slots.

ghost use Rattle.std.specs.Prelude.{◌≡◌, [], IfOk, IsOkAnd, OnOk, None, length};
ghost use Rattle.krml_layout.specs.Layout.{frame_bytes};
ghost use Rattle.krml_hoist.specs.Large.{if_large};
ghost use Rattle.krml_hoist.specs.Walk.{made, after, made_all, after_all, made_item, after_item, made_items, after_items, made_arm, after_arm, made_arms, after_arms, made_case, after_case, made_cases, after_cases, listed, entered, put_aside, left};

use crate::frames::{applied, copied, earlier, filled, slot, too_many};
use krml_layout::Layouts;
use krml_rename::made::{
    Part, Parts, arm, bin, bound, branches, call, case, cases, cast, choice, cmp, con, counted,
    fill, frame, get, hide, make, opposite, part, read, repeated, run, sequence, shift, slice, tab,
    tag_is, var, write,
};
use krml_rename::{clone_pat, clone_ty};
use krml_syntax::{Arm, Case, Expr, Item, Slot, Ty};
use krml_trace::{Box, NoMemory, Seq, count};
use std::alloc::{AllocError, Global};
use std::mem;

/// The slots of a frame so far, and the bytes of the first frame of its function that takes too many.
#[derive(Drop)]
pub struct Hoister<'n, 'a> {
    pub alloc: Global,
    pub layouts: &'n Layouts<'a>,
    pub slots: Seq<Slot>,
    pub large: Option<u64>,
}

/// What is put aside where a frame begins.
#[derive(Drop)]
pub struct Outer {
    pub slots: Seq<Slot>,
    pub large: Option<u64>,
}

impl<'n, 'a> Hoister<'n, 'a> {
    /// No slots so far.
    pub fn new(alloc: Global, layouts: &'n Layouts<'a>) -> Hoister<'n, 'a>
        ensures { result ≡ record { alloc = alloc; layouts = layouts.entry; slots = []; large = None } }
    {
        Hoister {
            alloc,
            layouts,
            slots: Seq::new(alloc),
            large: None,
        }
    }

    /// One slot more, and its number.
    fn list(&mut self, ty: &Ty, len: u32) -> Result<u32, NoMemory>
        ensures state { OnOk result (self.new ≡ listed ty.now len self.old) }
        ensures value { IfOk result (λ k. k ≡ length self.old.slots) }
    {
        let k = count(self.slots.len())?;
        self.slots.push(slot(self.alloc, ty, len)?)?;
        Ok(k)
    }

    /// The bytes of the frame, where they are too many. Bytes that cannot be counted are want of memory.
    fn excess(&self) -> Result<Option<u64>, NoMemory>
        ensures { IfOk result (λ r. r ≡ if_large (frame_bytes self.now.layouts.now self.now.slots)) }
    {
        match self.layouts.frame_bytes(self.slots.as_slice()) {
            Some(bytes) => Ok(too_many(bytes)),
            None => Err(AllocError),
        }
    }

    /// A frame with slots of its own begins.
    fn enter(&mut self, own: &[Slot]) -> Result<Outer, NoMemory>
        ensures state { OnOk result (self.new ≡ entered own.now self.old) }
        ensures value { IfOk result (λ r. r ≡ put_aside self.old) }
    {
        let large = mem::replace(&mut self.large, None);
        let own = copied(self.alloc, own)?;
        let slots = mem::replace(&mut self.slots, own);
        Ok(Outer { slots, large })
    }

    /// The frame ends: what was put aside comes back, and the slots of the frame are given.
    fn leave(&mut self, outer: Result<Outer, NoMemory>) -> Result<Seq<Slot>, NoMemory>
        ensures state { OnOk result (IsOkAnd outer (λ outer. self.new ≡ left outer self.old)) }
        ensures value { IfOk result (λ r. IsOkAnd outer (λ _. r ≡ self.old.slots)) }
    {
        let own = self.excess()?;
        let Outer { slots, large } = outer?;
        self.large = earlier(large, earlier(own, self.large));
        Ok(mem::replace(&mut self.slots, slots))
    }

    /// The expression with fills in place of its `alloc` forms, whose slots are listed. An error is want of memory. All parts of
    /// an expression are gone through before an error is told, since what is listed by then is not looked at.
    #[cycle(hoist)]
    pub fn expr(&mut self, e: &Expr) -> Part
        ensures value { IfOk result (λ r. r ≡ made e.now self.old) }
        ensures state { OnOk result (self.new ≡ after e.now self.old) }
    {
        match e {
            Expr::Var(x) => var(self.alloc, x.copy(self.alloc)),
            Expr::Unit => Box::new(self.alloc, Expr::Unit),
            Expr::Bool(b) => Box::new(self.alloc, Expr::Bool(*b)),
            Expr::Num(ty, n) => Box::new(self.alloc, Expr::Num(*ty, *n)),
            Expr::Bin(op, ty, a, b) => {
                let a = self.expr(a.get());
                let b = self.expr(b.get());
                bin(self.alloc, *op, *ty, a, b)
            }
            Expr::Shift(left, ty, a, n) => {
                let a = self.expr(a.get());
                let n = self.expr(n.get());
                shift(self.alloc, *left, *ty, a, n)
            }
            Expr::Cmp(op, ty, a, b) => {
                let a = self.expr(a.get());
                let b = self.expr(b.get());
                cmp(self.alloc, *op, *ty, a, b)
            }
            Expr::Not(a) => opposite(self.alloc, self.expr(a.get())),
            Expr::Cast(from, to, a) => cast(self.alloc, *from, *to, self.expr(a.get())),
            Expr::Hide(ty, a) => hide(self.alloc, *ty, self.expr(a.get())),
            Expr::Make(x, args, es) => {
                let es = self.each(es.as_slice());
                make(self.alloc, applied(self.alloc, x, args.as_slice()), es)
            }
            Expr::Get(y, a) => {
                let a = self.expr(a.get());
                get(self.alloc, y.copy(self.alloc), a)
            }
            Expr::Con(x, args, es) => {
                let es = self.each(es.as_slice());
                con(self.alloc, applied(self.alloc, x, args.as_slice()), es)
            }
            Expr::Read(a, at) => {
                let a = self.expr(a.get());
                let at = self.expr(at.get());
                read(self.alloc, a, at)
            }
            Expr::Write(a, at, value) => {
                let a = self.expr(a.get());
                let at = self.expr(at.get());
                let value = self.expr(value.get());
                write(self.alloc, a, at, value)
            }
            Expr::Slice(a, from, len) => {
                let a = self.expr(a.get());
                let from = self.expr(from.get());
                let len = self.expr(len.get());
                slice(self.alloc, a, from, len)
            }
            Expr::Tab(x, at) => {
                let at = self.expr(at.get());
                tab(self.alloc, x.copy(self.alloc), at)
            }
            Expr::If(test, a, b) => {
                let test = self.expr(test.get());
                let a = self.expr(a.get());
                let b = self.expr(b.get());
                choice(self.alloc, test, a, b)
            }
            Expr::Match(a, arms) => {
                let a = self.expr(a.get());
                let arms = self.each_arm(arms.as_slice());
                branches(self.alloc, a, arms)
            }
            Expr::Do(items, a) => {
                let items = self.each_item(items.as_slice());
                let a = self.expr(a.get());
                sequence(self.alloc, items, a)
            }
            Expr::Frame(own, a) => {
                let outer = self.enter(own.as_slice());
                let a = self.expr(a.get());
                let slots = self.leave(outer);
                frame(self.alloc, slots, a)
            }
            Expr::Alloc(ty, len, init) => {
                let k = self.list(ty, *len);
                let init = self.expr(init.get());
                filled(self.alloc, k, init)
            }
            Expr::While(test, a) => {
                let test = self.expr(test.get());
                let a = self.expr(a.get());
                repeated(self.alloc, test, a)
            }
            Expr::For(x, from, to, a) => {
                let from = self.expr(from.get());
                let to = self.expr(to.get());
                let a = self.expr(a.get());
                counted(self.alloc, x.copy(self.alloc), from, to, a)
            }
            Expr::Call(x, args, es) => {
                let es = self.each(es.as_slice());
                call(self.alloc, applied(self.alloc, x, args.as_slice()), es)
            }
            Expr::Cases(list) => {
                let list = self.each_case(list.as_slice());
                cases(self.alloc, list)
            }
            Expr::TagIs(x, a) => {
                let a = self.expr(a.get());
                tag_is(self.alloc, x.copy(self.alloc), a)
            }
            Expr::Part(x, j, a) => {
                let a = self.expr(a.get());
                part(self.alloc, x.copy(self.alloc), *j, a)
            }
            Expr::Fill(k, a) => fill(self.alloc, *k, self.expr(a.get())),
        }
    }

    /// Each of several expressions.
    #[cycle(hoist)]
    fn each(&mut self, es: &[Expr]) -> Parts
        ensures value { IfOk result (λ r. r ≡ made_all es.now self.old) }
        ensures state { OnOk result (self.new ≡ after_all es.now self.old) }
    {
        let mut all = Seq::new(self.alloc);
        for e in es {
            all.push(self.expr(e)?.into_inner())?;
        }
        Ok(all)
    }

    /// What stands in a `do`.
    #[cycle(hoist)]
    fn item(&mut self, item: &Item) -> Result<Item, NoMemory>
        ensures value { IfOk result (λ r. r ≡ made_item item.now self.old) }
        ensures state { OnOk result (self.new ≡ after_item item.now self.old) }
    {
        match item {
            Item::Let(x, ty, a) => {
                let a = self.expr(a);
                bound(x.copy(self.alloc), clone_ty(self.alloc, ty), a)
            }
            Item::Run(a) => run(self.expr(a)),
        }
    }

    #[cycle(hoist)]
    fn each_item(&mut self, items: &[Item]) -> Result<Seq<Item>, NoMemory>
        ensures value { IfOk result (λ r. r ≡ made_items items.now self.old) }
        ensures state { OnOk result (self.new ≡ after_items items.now self.old) }
    {
        let mut all = Seq::new(self.alloc);
        for i in items {
            all.push(self.item(i)?)?;
        }
        Ok(all)
    }

    /// A branch of a match.
    #[cycle(hoist)]
    fn arm(&mut self, a: &Arm) -> Result<Arm, NoMemory>
        ensures value { IfOk result (λ r. r ≡ made_arm a.now self.old) }
        ensures state { OnOk result (self.new ≡ after_arm a.now self.old) }
    {
        let body = self.expr(&a.body);
        arm(clone_pat(self.alloc, &a.pat), body)
    }

    #[cycle(hoist)]
    fn each_arm(&mut self, arms: &[Arm]) -> Result<Seq<Arm>, NoMemory>
        ensures value { IfOk result (λ r. r ≡ made_arms arms.now self.old) }
        ensures state { OnOk result (self.new ≡ after_arms arms.now self.old) }
    {
        let mut all = Seq::new(self.alloc);
        for a in arms {
            all.push(self.arm(a)?)?;
        }
        Ok(all)
    }

    /// A case.
    #[cycle(hoist)]
    fn case(&mut self, c: &Case) -> Result<Case, NoMemory>
        ensures value { IfOk result (λ r. r ≡ made_case c.now self.old) }
        ensures state { OnOk result (self.new ≡ after_case c.now self.old) }
    {
        let tests = self.each(c.tests.as_slice());
        let body = self.expr(&c.body);
        case(tests, body)
    }

    #[cycle(hoist)]
    fn each_case(&mut self, list: &[Case]) -> Result<Seq<Case>, NoMemory>
        ensures value { IfOk result (λ r. r ≡ made_cases list.now self.old) }
        ensures state { OnOk result (self.new ≡ after_cases list.now self.old) }
    {
        let mut all = Seq::new(self.alloc);
        for c in list {
            all.push(self.case(c)?)?;
        }
        Ok(all)
    }
}
