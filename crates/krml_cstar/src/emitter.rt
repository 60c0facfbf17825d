//! Statements of C for expressions.

ghost use Rattle.std.specs.Prelude.{◌≡◌, ◌+◌, ◌∷◌, ◌++◌, [], IfOk, IsOkAnd, OnOk, map};
ghost use Rattle.krml_trace.specs.declared.width.Width.TheVariants.{W8};
ghost use Rattle.krml_syntax.specs.declared.tree.Ty.{out-Ty};
ghost use Rattle.krml_syntax.specs.declared.tree.Ty.TheVariants.{Unit as unit_type, Int as int_type};
ghost use Rattle.krml_syntax.specs.Types.{u32 as word};
ghost use Rattle.krml_ast.specs.Names.{fun_named, table_named};
ghost use Rattle.krml_ctree.specs.Text.{width_type};
ghost use Rattle.krml_ctree.specs.declared.tree.CmpKind.TheVariants.{Lt};
ghost use Rattle.krml_ctree.specs.declared.tree.CType.TheVariants as ct;
ghost use Rattle.krml_ctree.specs.declared.tree.CExpr.TheVariants.{Var as variable_of, Field as field_of, Cmp as compared_by};
ghost use Rattle.krml_ctree.specs.declared.tree.CStatement.TheVariants as st;
ghost use Rattle.krml_cstar.specs.Types.{ctype};
ghost use Rattle.krml_cstar.specs.Variables.{look, plain, named, var};
ghost use Rattle.krml_cstar.specs.Numbers.{work};
ghost use Rattle.krml_cstar.specs.Translation.{code_of, all, items as items_code, variable, binary, field_type, looked_up, table_type, result_of, nothing, arm, divided, eq_mask, gte_mask, stepped};
ghost use Rattle.krml_cstar.specs.Scopes.{cut};
ghost use Rattle.krml_cstar.specs.Emitting.{item_code, behind, after, after_all, after_items, beside, below, given, apart, alone, calling, differs};

use crate::given::{
    Apart, Branch, Given, Part, behind, boolean, built, comparison, conversion, negation, no_value,
    nothing, number, shift, typed, value, with_code, with_type,
};
use crate::locals::{Local, Locals};
use crate::names::{named, plain};
use crate::numbers::{computed, narrow, spread, widen, work};
use crate::statements::{Code, chain, ended, repeated, set};
use crate::terms::{Term, Values, bin, cmp, field, lit, var};
use crate::types::{SourceType, copied, ctype, cvar, is_unit};
use krml_ast::{BinOp, Expr, IntTy, Item, Names, Ty, field_named};
use krml_ctree::{CBin, CExpr, CStatement, CType, CVar, CmpKind};
use krml_trace::{Box, Name, NoMemory, Seq, Width, both, one_more};
use std::alloc::Global;
use std::mem;

/// The definitions of the file, the statements of a function so far, the variables in scope, and the number of the next variable.
#[derive(Drop)]
pub struct Emitter<'n, 'a> {
    pub alloc: Global,
    pub defs: &'n Names<'a>,
    pub code: Seq<CStatement>,
    pub scope: Locals<'a>,
    pub next: u32,
}

/// Whether an expression gives nothing.
fn gives_nothing(defs: &Names<'_>, e: &Expr) -> bool
    ensures { result ≡ (code_of defs.now e.now).unit }
{
    match e {
        Expr::Var(_) | Expr::Bool(_) | Expr::Num(..) | Expr::Bin(..) => false,
        Expr::Shift(..) | Expr::Cmp(..) | Expr::Not(_) | Expr::Cast(..) => false,
        Expr::Make(..) | Expr::Get(..) | Expr::Tab(..) => false,
        Expr::Unit | Expr::While(..) | Expr::For(..) => true,
        Expr::If(_, a, _) => gives_nothing(defs, a.get()),
        Expr::Do(_, a) => gives_nothing(defs, a.get()),
        Expr::Call(f, _, _) => match defs.fun_named(f) {
            Some(def) => is_unit(def.result),
            None => true,
        },
        // not built yet
        Expr::Hide(..) | Expr::Con(..) | Expr::Read(..) | Expr::Write(..) => true,
        Expr::Slice(..) | Expr::Match(..) | Expr::Frame(..) | Expr::Alloc(..) => true,
        Expr::Cases(_) | Expr::TagIs(..) | Expr::Part(..) | Expr::Fill(..) => true,
    }
}

impl<'n, 'a> Emitter<'n, 'a> {
    /// No statements so far.
    pub fn new(alloc: Global, defs: &'n Names<'a>, scope: Locals<'a>, next: u32) -> Emitter<'n, 'a>
        ensures { result ≡ record { alloc = alloc; defs = defs.entry; code = []; scope = scope.entry; next = next } }
    {
        Emitter {
            alloc,
            defs,
            code: Seq::new(alloc),
            scope,
            next,
        }
    }

    /// One statement more.
    fn put(&mut self, statement: Result<CStatement, NoMemory>) -> Result<(), NoMemory>
        ensures { OnOk result (IsOkAnd statement (λ s. self.new ≡ record self.old { code = self.old.code ++ s ∷ [] })) }
    {
        self.code.push(statement?)
    }

    /// The number of a new variable. One that does not fit is want of memory: no file within the limits leads there.
    pub fn fresh(&mut self) -> Result<u32, NoMemory>
        ensures state { OnOk result (self.new ≡ record self.old { next = self.old.next + 1 }) }
        ensures value { IfOk result (λ n. n ≡ self.old.next) }
    {
        let n = self.next;
        self.next = one_more(n)?;
        Ok(n)
    }

    /// The variable of a number that the source does not have.
    fn variable(&self, number: u32, ty: Result<CType, NoMemory>) -> Result<CVar, NoMemory>
        ensures { IfOk result (λ r. IsOkAnd ty (λ a. r ≡ var number a)) }
    {
        cvar(ty, plain(self.alloc, number))
    }

    /// Its value.
    fn read(&self, number: u32) -> Term
        ensures { IfOk result (λ r. r ≡ variable_of (plain number)) }
    {
        var(self.alloc, plain(self.alloc, number))
    }

    /// A variable of the source.
    fn look(&self, x: &Name) -> Part
        ensures { IfOk result (λ r. r ≡ given (variable (look self.now.scope x.now) self.now.scope self.now.next)) }
    {
        match self.scope.look(x) {
            Some(local) => {
                let value = var(self.alloc, local.emitted.copy(self.alloc));
                with_type(value, copied(self.alloc, &local.ty))
            }
            None => no_value(self.alloc),
        }
    }

    /// Puts a variable with its value.
    fn declare(&mut self, variable: Result<CVar, NoMemory>, e: Term) -> Result<(), NoMemory>
        ensures { OnOk result (IsOkAnd variable (λ x. IsOkAnd e (λ e. self.new ≡ record self.old { code = self.old.code ++ st.Decl x e ∷ [] }))) }
    {
        let (variable, e) = both(variable, e)?;
        self.put(Ok(CStatement::Decl(variable, e.into_inner())))
    }

    /// Puts a quotient, or a remainder, into a variable.
    fn divide(
        &mut self,
        variable: Result<CVar, NoMemory>,
        quotient: bool,
        a: Term,
        b: Term,
    ) -> Result<(), NoMemory>
        ensures { OnOk result (IsOkAnd variable (λ x. IsOkAnd a (λ a. IsOkAnd b (λ b. self.new ≡ record self.old { code = self.old.code ++ st.Div x quotient a b ∷ [] })))) }
    {
        let (variable, (a, b)) = both(variable, both(a, b))?;
        let division = CStatement::Div(variable, quotient, a.into_inner(), b.into_inner());
        self.put(Ok(division))
    }

    /// A quotient or a remainder.
    fn divided(&mut self, quotient: bool, i: IntTy, a: Term, b: Term) -> Term
        ensures state { OnOk result (IsOkAnd a (λ a. IsOkAnd b (λ b. self.new ≡ behind (divided quotient i a b self.old.scope self.old.next) self.old))) }
        ensures value { IfOk result (λ r. IsOkAnd a (λ a. IsOkAnd b (λ b. r ≡ (divided quotient i a b self.old.scope self.old.next).value))) }
    {
        let n = self.fresh()?;
        let variable = self.variable(n, Ok(CType::of(work(i.width))));
        let a = widen(self.alloc, i.width, a);
        let b = widen(self.alloc, i.width, b);
        self.divide(variable, quotient, a, b)?;
        narrow(self.alloc, i.width, self.read(n))
    }

    /// A new variable of the width that numbers of a type are computed with at, with a value.
    fn hold(&mut self, i: IntTy, e: Term) -> Result<u32, NoMemory>
        ensures state { OnOk result (IsOkAnd e (λ e. self.new ≡ record self.old { code = self.old.code ++ st.Decl (var self.old.next (width_type (work i.width))) e ∷ []; next = self.old.next + 1 })) }
        ensures value { IfOk result (λ n. n ≡ self.old.next) }
    {
        let n = self.fresh()?;
        let variable = self.variable(n, Ok(CType::of(work(i.width))));
        self.declare(variable, e)?;
        Ok(n)
    }

    /// The mask of equality.
    fn eq_mask(&mut self, i: IntTy, a: Term, b: Term) -> Term
        ensures state { OnOk result (IsOkAnd a (λ a. IsOkAnd b (λ b. self.new ≡ behind (eq_mask i a b self.old.scope self.old.next) self.old))) }
        ensures value { IfOk result (λ r. IsOkAnd a (λ a. IsOkAnd b (λ b. r ≡ (eq_mask i a b self.old.scope self.old.next).value))) }
    {
        let alloc = self.alloc;
        let a = widen(alloc, i.width, a);
        let b = widen(alloc, i.width, b);
        let x = self.hold(i, bin(alloc, CBin::Xor, a, b))?;
        spread(alloc, i, self.differs(i, x))
    }

    /// `x | (0 - x)`, whose highest bit is 1 where x is not 0.
    fn differs(&self, i: IntTy, x: u32) -> Term
        ensures { IfOk result (λ r. r ≡ differs i (variable_of (plain x))) }
    {
        let zero = lit(self.alloc, work(i.width), 0);
        let negated = bin(self.alloc, CBin::Sub, zero, self.read(x));
        bin(self.alloc, CBin::Or, self.read(x), negated)
    }

    /// `(x ^ y) | ((x - y) ^ y)`, whose highest bit is 1 where x is below y.
    fn below(&self, x: u32, y: u32) -> Term
        ensures { IfOk result (λ r. r ≡ below (variable_of (plain x)) (variable_of (plain y))) }
    {
        let alloc = self.alloc;
        let other = bin(alloc, CBin::Xor, self.read(x), self.read(y));
        let less = bin(alloc, CBin::Sub, self.read(x), self.read(y));
        let less = bin(alloc, CBin::Xor, less, self.read(y));
        bin(alloc, CBin::Or, other, less)
    }

    /// The mask of `>=`.
    fn gte_mask(&mut self, i: IntTy, a: Term, b: Term) -> Term
        ensures state { OnOk result (IsOkAnd a (λ a. IsOkAnd b (λ b. self.new ≡ behind (gte_mask i a b self.old.scope self.old.next) self.old))) }
        ensures value { IfOk result (λ r. IsOkAnd a (λ a. IsOkAnd b (λ b. r ≡ (gte_mask i a b self.old.scope self.old.next).value))) }
    {
        let a = widen(self.alloc, i.width, a);
        let b = widen(self.alloc, i.width, b);
        let x = self.hold(i, a)?;
        let y = self.hold(i, b)?;
        let e = bin(self.alloc, CBin::Xor, self.read(x), self.below(x, y));
        spread(self.alloc, i, e)
    }

    /// The value of an operator on two operands.
    fn operated(&mut self, op: BinOp, i: IntTy, a: Term, b: Term) -> Term
        ensures state { OnOk result (IsOkAnd a (λ a. IsOkAnd b (λ b. self.new ≡ behind (binary op i a b self.old.scope self.old.next) self.old))) }
        ensures value { IfOk result (λ r. IsOkAnd a (λ a. IsOkAnd b (λ b. r ≡ (binary op i a b self.old.scope self.old.next).value))) }
    {
        let alloc = self.alloc;
        match op {
            BinOp::Add => computed(alloc, CBin::Add, i.width, a, b),
            BinOp::Sub => computed(alloc, CBin::Sub, i.width, a, b),
            BinOp::Mul => computed(alloc, CBin::Mul, i.width, a, b),
            BinOp::And => computed(alloc, CBin::And, i.width, a, b),
            BinOp::Or => computed(alloc, CBin::Or, i.width, a, b),
            BinOp::Xor => computed(alloc, CBin::Xor, i.width, a, b),
            BinOp::Div => self.divided(true, i, a, b),
            BinOp::Rem => self.divided(false, i, a, b),
            BinOp::EqMask => self.eq_mask(i, a, b),
            BinOp::GteMask => self.gte_mask(i, a, b),
        }
    }

    /// An operator on two operands.
    fn binary(&mut self, op: BinOp, i: IntTy, a: Part, b: Part) -> Part
        ensures state { OnOk result (IsOkAnd a (λ a. IsOkAnd b (λ b. self.new ≡ behind (binary op i a.value b.value self.old.scope self.old.next) self.old))) }
        ensures value { IfOk result (λ r. IsOkAnd a (λ a. IsOkAnd b (λ b. r ≡ record { value = (binary op i a.value b.value self.old.scope self.old.next).value; ty = int_type i }))) }
    {
        let value = self.operated(op, i, value(a), value(b));
        typed(self.alloc, value, Ty::Int(i))
    }

    /// The type of a field of a value of a type.
    fn field_type(&self, y: &Name, a: &Ty) -> SourceType
        ensures { IfOk result (λ r. r ≡ field_type self.now.defs.now y.now (out-Ty a.now)) }
    {
        let Ty::Named(x, _) = a else {
            return Box::new(self.alloc, Ty::Unit);
        };
        let Some(def) = self.defs.struct_named(x) else {
            return Box::new(self.alloc, Ty::Unit);
        };
        match field_named(def.fields, y) {
            Some(ty) => copied(self.alloc, ty),
            None => Box::new(self.alloc, Ty::Unit),
        }
    }

    /// A field of a value.
    fn got(&self, y: &Name, a: Part) -> Part
        ensures { IfOk result (λ r. IsOkAnd a (λ a. r ≡ record { value = field_of a.value y.now; ty = field_type self.now.defs.now y.now (out-Ty a.ty) })) }
    {
        let Given { value, ty } = a?;
        let ty = self.field_type(y, ty.get());
        with_type(field(self.alloc, Ok(value), y.copy(self.alloc)), ty)
    }

    /// The type of the numbers in a table.
    fn table_type(&self, x: &Name) -> SourceType
        ensures { IfOk result (λ r. r ≡ table_type (table_named self.now.defs.now x.now)) }
    {
        match self.defs.table_named(x) {
            Some(i) => Box::new(self.alloc, Ty::Int(i)),
            None => Box::new(self.alloc, Ty::Unit),
        }
    }

    /// Puts a variable with a number of a table.
    fn load(
        &mut self,
        variable: Result<CVar, NoMemory>,
        x: &Name,
        place: Term,
    ) -> Result<(), NoMemory>
        ensures { OnOk result (IsOkAnd variable (λ v. IsOkAnd place (λ e. self.new ≡ record self.old { code = self.old.code ++ st.Tab v x.now e ∷ [] }))) }
    {
        let ((variable, x), place) = both(both(variable, x.copy(self.alloc)), place)?;
        self.put(Ok(CStatement::Tab(variable, x, place.into_inner())))
    }

    /// A number of a table.
    fn looked_up(&mut self, x: &Name, place: Part) -> Part
        ensures state { OnOk result (IsOkAnd place (λ g. self.new ≡ behind (looked_up self.old.defs.now x.now (alone g) self.old.scope self.old.next) self.old)) }
        ensures value { IfOk result (λ r. IsOkAnd place (λ g. r ≡ given (looked_up self.old.defs.now x.now (alone g) self.old.scope self.old.next))) }
    {
        let n = self.fresh()?;
        let ty = self.table_type(x)?;
        let variable = self.variable(n, ctype(self.alloc, ty.get()));
        self.load(variable, x, value(place))?;
        with_type(self.read(n), Ok(ty))
    }

    /// The type of the result of a function.
    fn result_of(&self, f: &Name) -> SourceType
        ensures { IfOk result (λ r. r ≡ result_of (fun_named self.now.defs.now f.now)) }
    {
        match self.defs.fun_named(f) {
            Some(def) => copied(self.alloc, def.result),
            None => Box::new(self.alloc, Ty::Unit),
        }
    }

    /// A call that gives nothing.
    fn ran(&mut self, ty: Box<Ty>, f: &Name, values: Values) -> Part
        ensures state { OnOk result (IsOkAnd values (λ es. self.new ≡ record self.old { code = self.old.code ++ st.Run f.now es ∷ [] })) }
        ensures value { IfOk result (λ r. r ≡ record { value = nothing; ty = ty }) }
    {
        let (f, values) = both(f.copy(self.alloc), values)?;
        self.put(Ok(CStatement::Run(f, values)))?;
        nothing(self.alloc, Ok(ty))
    }

    /// A call that gives a value.
    fn called(&mut self, ty: Box<Ty>, f: &Name, values: Values) -> Part
        ensures state { OnOk result (IsOkAnd values (λ es. self.new ≡ record self.old { code = self.old.code ++ st.Call (var self.old.next (ctype ty)) f.now es ∷ []; next = self.old.next + 1 })) }
        ensures value { IfOk result (λ r. r ≡ record { value = variable_of (plain self.old.next); ty = ty }) }
    {
        let n = self.fresh()?;
        let variable = self.variable(n, ctype(self.alloc, ty.get()));
        let (variable, (f, values)) = both(variable, both(f.copy(self.alloc), values))?;
        self.put(Ok(CStatement::Call(variable, f, values)))?;
        with_type(self.read(n), Ok(ty))
    }

    /// A call.
    fn call(&mut self, f: &Name, values: Values) -> Part
        ensures state { OnOk result (IsOkAnd values (λ es. self.new ≡ behind (calling self.old.defs.now f.now es self.old.next) self.old)) }
        ensures value { IfOk result (λ r. IsOkAnd values (λ es. r ≡ given (calling self.old.defs.now f.now es self.old.next))) }
    {
        let ty = self.result_of(f)?;
        if is_unit(ty.get()) {
            self.ran(ty, f, values)
        } else {
            self.called(ty, f, values)
        }
    }

    /// A branch, and then its value into the variable of the result.
    fn stored(&self, number: u32, code: Seq<CStatement>, value: Box<CExpr>) -> Code
        ensures { IfOk result (λ r. r ≡ code ++ st.Set (plain number) value ∷ []) }
    {
        ended(code, set(plain(self.alloc, number), Ok(value)))
    }

    /// Puts the variable of a result, and two branches that leave their value there.
    fn settle(
        &mut self,
        number: u32,
        ty: &Ty,
        test: Term,
        body: Code,
        rest: Code,
    ) -> Result<(), NoMemory>
        ensures { OnOk result (IsOkAnd test (λ t. IsOkAnd body (λ yes. IsOkAnd rest (λ no. self.new ≡ record self.old {
          code = (self.old.code ++ st.Blank (var number (ctype ty.now)) ∷ []) ++ st.Chain (arm t yes ∷ []) no ∷ [];
        })))) }
    {
        let variable = self.variable(number, ctype(self.alloc, ty))?;
        self.put(Ok(CStatement::Blank(variable)))?;
        self.put(chain(self.alloc, test, body, rest))
    }

    /// An `if` that gives nothing.
    fn branched(&mut self, test: Part, yes: Branch, no: Branch) -> Part
        ensures state { OnOk result (IsOkAnd test (λ t. IsOkAnd yes (λ yes. IsOkAnd no (λ no. self.new ≡ record self.old {
          code = self.old.code ++ st.Chain (arm t.value yes.code ∷ []) no.code ∷ [];
        })))) }
        ensures value { IfOk result (λ r. IsOkAnd test (λ t. IsOkAnd yes (λ yes. r ≡ record { value = nothing; ty = yes.ty }))) }
    {
        let (yes, no) = both(yes, no)?;
        let chain = chain(self.alloc, value(test), Ok(yes.code), Ok(no.code));
        self.put(chain)?;
        nothing(self.alloc, Ok(yes.ty))
    }

    /// An `if` that gives the value of a variable, which each branch leaves there.
    fn chosen(&mut self, number: Result<u32, NoMemory>, test: Part, yes: Branch, no: Branch) -> Part
        ensures state { OnOk result (IsOkAnd number (λ k. IsOkAnd test (λ t. IsOkAnd yes (λ yes. IsOkAnd no (λ no. self.new ≡ record self.old {
          code = (self.old.code ++ st.Blank (var k (ctype yes.ty)) ∷ [])
              ++ st.Chain (arm t.value (yes.code ++ st.Set (plain k) yes.value ∷ []) ∷ []) (no.code ++ st.Set (plain k) no.value ∷ []) ∷ [];
        }))))) }
        ensures value { IfOk result (λ r. IsOkAnd number (λ k. IsOkAnd test (λ t. IsOkAnd yes (λ yes. r ≡ record { value = variable_of (plain k); ty = yes.ty })))) }
    {
        let (number, (yes, no)) = both(number, both(yes, no))?;
        let body = self.stored(number, yes.code, yes.value);
        let rest = self.stored(number, no.code, no.value);
        self.settle(number, yes.ty.get(), value(test), body, rest)?;
        with_type(self.read(number), Ok(yes.ty))
    }

    /// A new variable of the source, in scope from here on.
    fn bind(&mut self, x: &'a Name, ty: SourceType, value: Term) -> Result<(), NoMemory>
        ensures { OnOk result (IsOkAnd ty (λ a. IsOkAnd value (λ e. self.new ≡ record self.old {
          code = self.old.code ++ st.Decl (record { ty = ctype a; name = named self.old.next x.now }) e ∷ [];
          scope = record { name = x.now; emitted = named self.old.next x.now; ty = a } ∷ self.old.scope;
          next = self.old.next + 1;
        }))) }
    {
        let n = self.fresh()?;
        let (ty, emitted) = both(ty, named(self.alloc, n, x))?;
        let variable = cvar(ctype(self.alloc, ty.get()), emitted.copy(self.alloc));
        self.declare(variable, value)?;
        self.scope.push(Local {
            name: x,
            emitted,
            ty: ty.into_inner(),
        })
    }

    /// Leaves the oldest variables in scope, so many.
    fn leave(&mut self, len: usize)
        ensures { self.new ≡ record self.old { scope = cut len self.old.scope } }
    {
        self.scope.cut(len);
    }

    /// The variable of a `for`, in scope from here on, and behind it the variable of its end.
    fn range(&mut self, x: &'a Name, first: Part, end: Part) -> Result<u32, NoMemory>
        ensures state { OnOk result (IsOkAnd first (λ a. IsOkAnd end (λ b. self.new ≡ record self.old {
          code = (self.old.code ++ st.Decl (record { ty = ct.U32; name = named self.old.next x.now }) a.value ∷ []) ++ st.Decl (var (self.old.next + 1) ct.U32) b.value ∷ [];
          scope = record { name = x.now; emitted = named self.old.next x.now; ty = word } ∷ self.old.scope;
          next = self.old.next + 2;
        }))) }
        ensures value { IfOk result (λ n. n ≡ self.old.next + 1) }
    {
        let word = IntTy {
            width: Width::W32,
            secret: false,
        };
        self.bind(x, Box::new(self.alloc, Ty::Int(word)), value(first))?;
        let n = self.fresh()?;
        let variable = self.variable(n, Ok(CType::U32));
        self.declare(variable, value(end))?;
        Ok(n)
    }

    /// The value of the variable of a loop.
    fn counter(&self, number: u32, x: &Name) -> Term
        ensures { IfOk result (λ r. r ≡ variable_of (named number x.now)) }
    {
        var(self.alloc, named(self.alloc, number, x))
    }

    /// One more in the variable of a loop.
    fn step(&self, number: u32, x: &Name) -> Result<CStatement, NoMemory>
        ensures { IfOk result (λ r. r ≡ stepped (named number x.now)) }
    {
        let one = lit(self.alloc, Width::W32, 1);
        let next = bin(self.alloc, CBin::Add, self.counter(number, x), one);
        set(named(self.alloc, number, x), next)
    }

    /// Puts the loop from the value of one variable up to that of another.
    fn counted(&mut self, number: u32, end: Result<u32, NoMemory>, x: &Name, body: Branch) -> Part
        ensures state { OnOk result (IsOkAnd end (λ end. IsOkAnd body (λ body. self.new ≡ record self.old {
          code = self.old.code
              ++ st.Loop [] (compared_by W8 Lt (variable_of (named number x.now)) (variable_of (plain end))) (body.code ++ stepped (named number x.now) ∷ []) ∷ [];
        }))) }
        ensures value { IfOk result (λ r. r ≡ record { value = nothing; ty = unit_type }) }
    {
        let (end, body) = both(end, body)?;
        let body = ended(body.code, self.step(number, x));
        let test = cmp(
            self.alloc,
            CmpKind::Lt,
            self.counter(number, x),
            self.read(end),
        );
        self.put(repeated(Ok(Seq::new(self.alloc)), test, body))?;
        no_value(self.alloc)
    }

    /// A loop while a test is true.
    fn tested(&mut self, test: Branch, body: Branch) -> Part
        ensures state { OnOk result (IsOkAnd test (λ t. IsOkAnd body (λ body. self.new ≡ record self.old { code = self.old.code ++ st.Loop t.code t.value body.code ∷ [] }))) }
        ensures value { IfOk result (λ r. r ≡ record { value = nothing; ty = unit_type }) }
    {
        let (test, body) = both(test, body)?;
        self.put(repeated(Ok(test.code), Ok(test.value), Ok(body.code)))?;
        no_value(self.alloc)
    }

    /// Puts an expression's statements, and gives its expression of C and its type. An error is want of memory. The parts of an
    /// expression are all gone through before an error is told, since what is put by then is not looked at.
    #[cycle(emit)]
    pub fn expr(&mut self, e: &'a Expr) -> Part
        ensures state { OnOk result (self.new ≡ after (code_of self.old.defs.now e.now) self.old) }
        ensures value { IfOk result (λ r. r ≡ given ((code_of self.old.defs.now e.now).run self.old.scope self.old.next)) }
    {
        match e {
            Expr::Var(x) => self.look(x),
            Expr::Unit => no_value(self.alloc),
            Expr::Bool(b) => boolean(self.alloc, *b),
            Expr::Num(i, n) => number(self.alloc, *i, *n),
            Expr::Bin(op, i, a, b) => {
                let a = self.expr(a.get());
                let b = self.expr(b.get());
                self.binary(*op, *i, a, b)
            }
            Expr::Shift(left, i, a, b) => {
                let a = self.expr(a.get());
                let b = self.expr(b.get());
                shift(self.alloc, *left, *i, a, b)
            }
            Expr::Cmp(op, i, a, b) => {
                let a = self.expr(a.get());
                let b = self.expr(b.get());
                comparison(self.alloc, *op, *i, a, b)
            }
            Expr::Not(a) => {
                let a = self.expr(a.get());
                negation(self.alloc, a)
            }
            Expr::Cast(i, j, a) => {
                let a = self.expr(a.get());
                conversion(self.alloc, *i, *j, a)
            }
            Expr::Make(x, _, es) => {
                let values = self.all(es.as_slice());
                built(self.alloc, x, values)
            }
            Expr::Get(y, a) => {
                let a = self.expr(a.get());
                self.got(y, a)
            }
            Expr::Tab(x, a) => {
                let a = self.expr(a.get());
                self.looked_up(x, a)
            }
            Expr::If(test, a, b) => {
                let test = self.expr(test.get());
                if gives_nothing(self.defs, a.get()) {
                    let yes = self.apart(a.get());
                    let no = self.apart(b.get());
                    self.branched(test, yes, no)
                } else {
                    let number = self.fresh();
                    let yes = self.apart(a.get());
                    let no = self.apart(b.get());
                    self.chosen(number, test, yes, no)
                }
            }
            Expr::Do(items, a) => {
                let before = self.scope.len();
                let items = self.items(items.as_slice());
                let last = self.expr(a.get());
                self.leave(before);
                behind(items, last)
            }
            Expr::While(test, a) => {
                let test = self.apart(test.get());
                let body = self.apart(a.get());
                self.tested(test, body)
            }
            Expr::For(x, a, b, e) => {
                let first = self.expr(a.get());
                let end = self.expr(b.get());
                let before = self.scope.len();
                let number = self.next;
                let end = self.range(x, first, end);
                let body = self.apart(e.get());
                self.leave(before);
                self.counted(number, end, x, body)
            }
            Expr::Call(f, _, es) => {
                let values = self.all(es.as_slice());
                self.call(f, values)
            }
            // not built yet
            Expr::Hide(..) | Expr::Con(..) | Expr::Read(..) => no_value(self.alloc),
            Expr::Write(..) | Expr::Slice(..) | Expr::Match(..) => no_value(self.alloc),
            Expr::Frame(..) | Expr::Alloc(..) | Expr::Cases(_) => no_value(self.alloc),
            Expr::TagIs(..) | Expr::Part(..) | Expr::Fill(..) => no_value(self.alloc),
        }
    }

    /// The same with the statements apart from those so far.
    #[cycle(emit)]
    fn apart(&mut self, e: &'a Expr) -> Branch
        ensures state { OnOk result (self.new ≡ beside ((code_of self.old.defs.now e.now).run self.old.scope self.old.next) self.old) }
        ensures value { IfOk result (λ r. r ≡ apart ((code_of self.old.defs.now e.now).run self.old.scope self.old.next)) }
    {
        let before = mem::replace(&mut self.code, Seq::new(self.alloc));
        let part = self.expr(e);
        let code = mem::replace(&mut self.code, before);
        with_code(code, part)
    }

    /// The values of expressions from left to right.
    #[cycle(emit)]
    fn all(&mut self, es: &'a [Expr]) -> Values
        ensures state { OnOk result (self.new ≡ after_all (all (map (code_of self.old.defs.now) es.now) self.old.scope self.old.next) self.old) }
        ensures value { IfOk result (λ r. r ≡ (all (map (code_of self.old.defs.now) es.now) self.old.scope self.old.next).values) }
    {
        let mut values = Seq::new(self.alloc);
        for e in es {
            values.push(self.expr(e)?.value.into_inner())?;
        }
        Ok(values)
    }

    /// Items in order. Their variables are in scope from here on.
    #[cycle(emit)]
    fn items(&mut self, items: &'a [Item]) -> Result<(), NoMemory>
        ensures { OnOk result (self.new ≡ after_items (items_code (map (item_code self.old.defs.now) items.now) self.old.scope self.old.next) self.old) }
    {
        for item in items {
            self.item(item)?;
        }
        Ok(())
    }

    /// An item. Its variable is in scope from here on.
    #[cycle(emit)]
    fn item(&mut self, item: &'a Item) -> Result<(), NoMemory>
        ensures { OnOk result (self.new ≡ after_items (item_code self.old.defs.now item.now self.old.scope self.old.next) self.old) }
    {
        match item {
            Item::Let(x, ty, e) => {
                let e = value(self.expr(e));
                self.bind(x, copied(self.alloc, ty), e)
            }
            Item::Run(e) => {
                self.expr(e)?;
                Ok(())
            }
        }
    }
}
