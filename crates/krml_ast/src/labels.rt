//! The labelled type of an expression.

ghost use Rattle.std.specs.Prelude.{◌≡◌, [], ◌∷◌, ◌++◌, IfOk, IsOkAnd, OnOk, map, Some, None, option_and_then};
ghost use Rattle.std.specs.Option.{option_copied};
ghost use Rattle.krml_syntax.specs.declared.tree.Ty.{out-Ty};
ghost use Rattle.krml_syntax.specs.declared.tree.Ty.TheVariants.{Buf, Named};
ghost use Rattle.krml_syntax.specs.Types.{element_of};
ghost use Rattle.krml_ast.specs.Names.{con_named, struct_named};
ghost use Rattle.krml_ast.specs.Labelled.{hidden, con_parts, make_parts, parts_bind, binds, tab_type, con_type, call_type, field_type, part_type, fill_type, first_arm, first_case, items_bind, labelled_in, arm_labelled, item_binds, case_labelled, vars_of_fields, labelled_type, IsTypedIn, IsLabelled};

use crate::fields::field_named;
use crate::names::Names;
use crate::types::{arguments_of, buffer, each_at, element_of, name_of, named, type_at};
use crate::vars::Vars;
use krml_rename::{clone_each, clone_ty};
use krml_syntax::{Arm, Case, Expr, Field, IntTy, Item, Pat, Slot, SourceFile, Ty};
use krml_trace::{Name, NoMemory, Seq};
use std::alloc::Global;

/// A labelled type, where there is one.
type Labelled = Result<Option<Ty>, NoMemory>;

/// What expressions are given labelled types by: the definitions of their file.
#[derive(Clone, Copy)]
struct Labels<'n, 'a> {
    alloc: Global,
    names: &'n Names<'a>,
}

impl<'n, 'a> Labels<'n, 'a> {
    /// The struct of a name at type arguments.
    fn make(&self, x: &Name, args: &[Ty]) -> Labelled
        ensures { IfOk result (λ r. r ≡ Some (Named x.now args.now)) }
    {
        Ok(Some(named(self.alloc, x, clone_each(self.alloc, args))?))
    }

    /// The type of the numbers of a table.
    fn table(&self, x: &Name) -> Option<Ty>
        ensures { result ≡ tab_type self.now.names.now x.now }
    {
        match self.names.table_named(x) {
            Some(i) => Some(Ty::Int(i)),
            None => None,
        }
    }

    /// The sum of a constructor at type arguments.
    fn con(&self, x: &Name, args: &[Ty]) -> Labelled
        ensures { IfOk result (λ r. r ≡ con_type self.now.names.now x.now args.now) }
    {
        let Some(def) = self.names.con_named(x) else {
            return Ok(None);
        };
        self.make(def.sum, args)
    }

    /// The result of a function at type arguments.
    fn call(&self, x: &Name, args: &[Ty]) -> Labelled
        ensures { IfOk result (λ r. r ≡ call_type self.now.names.now x.now args.now) }
    {
        let Some(def) = self.names.fun_named(x) else {
            return Ok(None);
        };
        Ok(Some(type_at(self.alloc, def.result, def.vars, args)?))
    }

    /// A field of a value.
    fn get(&self, y: &Name, a: Labelled) -> Labelled
        ensures { IfOk result (λ r. IsOkAnd a (λ a. r ≡ option_and_then (field_type self.now.names.now y.now) a)) }
    {
        match a? {
            Some(a) => self.field(y, &a),
            None => Ok(None),
        }
    }

    /// A field of a value of a type.
    fn field(&self, y: &Name, a: &Ty) -> Labelled
        ensures { IfOk result (λ r. r ≡ field_type self.now.names.now y.now a.now) }
    {
        let Some((x, args)) = name_of(a) else {
            return Ok(None);
        };
        let Some(def) = self.names.struct_named(x) else {
            return Ok(None);
        };
        let Some(ty) = field_named(def.fields, y) else {
            return Ok(None);
        };
        Ok(Some(type_at(self.alloc, ty, def.vars, args)?))
    }

    /// An argument of a constructor of a value.
    fn part(&self, x: &Name, j: u32, a: Labelled) -> Labelled
        ensures { IfOk result (λ r. IsOkAnd a (λ a. r ≡ option_and_then (part_type self.now.names.now x.now j) a)) }
    {
        match a? {
            Some(a) => self.argument(x, j, &a),
            None => Ok(None),
        }
    }

    /// An argument of a constructor of a value of a type.
    fn argument(&self, x: &Name, j: u32, a: &Ty) -> Labelled
        ensures { IfOk result (λ r. r ≡ part_type self.now.names.now x.now j a.now) }
    {
        let Some(def) = self.names.con_named(x) else {
            return Ok(None);
        };
        let Some(ty) = def.args.get(j as usize) else {
            return Ok(None);
        };
        Ok(Some(type_at(self.alloc, ty, def.vars, arguments_of(a))?))
    }

    /// The types of the arguments of a constructor of a value.
    fn con_parts(&self, x: &Name, a: &Ty) -> Result<Seq<Ty>, NoMemory>
        ensures { IfOk result (λ r. r ≡ con_parts (con_named self.now.names.now x.now) a.now) }
    {
        let Some(def) = self.names.con_named(x) else {
            return Ok(Seq::new(self.alloc));
        };
        each_at(self.alloc, def.args, def.vars, arguments_of(a))
    }

    /// The types of the fields of a value.
    fn make_parts(&self, x: &Name, a: &Ty) -> Result<Seq<Ty>, NoMemory>
        ensures { IfOk result (λ r. r ≡ make_parts (struct_named self.now.names.now x.now) a.now) }
    {
        let mut types = Seq::new(self.alloc);
        let Some(def) = self.names.struct_named(x) else {
            return Ok(types);
        };
        let args = arguments_of(a);
        for field in def.fields {
            types.push(type_at(self.alloc, &field.ty, def.vars, args)?)?;
        }
        Ok(types)
    }

    /// Adds the variables that a pattern binds at a place of a type.
    #[cycle(binds)]
    fn bind(&self, vars: &mut Vars, pat: &Pat, a: &Ty) -> Result<(), NoMemory>
        ensures { OnOk result (vars.new ≡ binds self.now.names.now pat.now a.now vars.old) }
    {
        match pat {
            Pat::Any | Pat::Bool(_) | Pat::Num(_, _) => Ok(()),
            Pat::Bind(x) => add(self.alloc, vars, x, a),
            Pat::Con(x, pats) => {
                let types = self.con_parts(x, a);
                self.bind_at(vars, pats.as_slice(), types)
            }
            Pat::Make(x, pats) => {
                let types = self.make_parts(x, a);
                self.bind_at(vars, pats.as_slice(), types)
            }
        }
    }

    /// The same of patterns, one for each type, where these are given as a result.
    #[cycle(binds)]
    fn bind_at(
        &self,
        vars: &mut Vars,
        pats: &[Pat],
        types: Result<Seq<Ty>, NoMemory>,
    ) -> Result<(), NoMemory>
        ensures { OnOk result (IsOkAnd types (λ types. vars.new ≡ parts_bind (map (binds self.now.names.now) pats.now) types vars.old)) }
    {
        let types = types?;
        self.bind_parts(vars, pats, types.as_slice())
    }

    /// The same of patterns, one for each type.
    #[cycle(binds)]
    fn bind_parts(&self, vars: &mut Vars, pats: &[Pat], types: &[Ty]) -> Result<(), NoMemory>
        ensures { OnOk result (vars.new ≡ parts_bind (map (binds self.now.names.now) pats.now) types.now vars.old) }
    {
        let mut left = types;
        for pat in pats {
            let [a, rest @ ..] = left else {
                return Ok(());
            };
            self.bind(vars, pat, a)?;
            left = rest;
        }
        Ok(())
    }

    /// The variables that a pattern binds at a place of a type.
    fn pattern(&self, pat: &Pat, a: &Ty) -> Result<Vars, NoMemory>
        ensures { IfOk result (λ r. r ≡ binds self.now.names.now pat.now a.now []) }
    {
        let mut vars = Vars::new(self.alloc);
        self.bind(&mut vars, pat, a)?;
        Ok(vars)
    }

    /// The variables of items.
    fn items(&self, items: &[Item]) -> Result<Vars, NoMemory>
        ensures { IfOk result (λ r. r ≡ items_bind (map (item_binds self.now.names.now) items.now) []) }
    {
        let mut vars = Vars::new(self.alloc);
        for item in items {
            self.item(&mut vars, item)?;
        }
        Ok(vars)
    }

    /// Adds the variable of an item.
    fn item(&self, vars: &mut Vars, item: &Item) -> Result<(), NoMemory>
        ensures { OnOk result (vars.new ≡ item_binds self.now.names.now item.now vars.old) }
    {
        match item {
            Item::Let(x, b, _) => add(self.alloc, vars, x, b),
            Item::Run(_) => Ok(()),
        }
    }

    /// A buffer of elements of a type.
    fn alloc(&self, element: &Ty) -> Labelled
        ensures { IfOk result (λ r. r ≡ Some (Buf element.now)) }
    {
        Ok(Some(buffer(self.alloc, clone_ty(self.alloc, element))?))
    }

    /// The buffer of a slot of a frame.
    fn slot(&self, slots: &[Slot], k: u32) -> Labelled
        ensures { IfOk result (λ r. r ≡ fill_type (Some slots.now) k None) }
    {
        match slots.get(k as usize) {
            Some(slot) => self.alloc(&slot.ty),
            None => Ok(None),
        }
    }

    /// The type of an expression in a scope, with the slots of the innermost frame that stands inside of the whole.
    #[cycle(label)]
    fn expr(&self, vars: &mut Vars, frame: Option<&[Slot]>, e: &Expr) -> Labelled
        ensures value { IfOk result (λ r. r ≡ labelled_in self.now.names.now e.now (record { vars = vars.old; frame = option_copied frame.entry })) }
        ensures vars { OnOk result (vars.new ≡ vars.old) }
    {
        match e {
            Expr::Var(x) => vars.look(self.alloc, x),
            Expr::Unit | Expr::Write(..) | Expr::While(..) | Expr::For(..) => Ok(Some(Ty::Unit)),
            Expr::Bool(_) | Expr::Cmp(..) | Expr::Not(_) | Expr::TagIs(..) => Ok(Some(Ty::Bool)),
            Expr::Num(i, _) | Expr::Bin(_, i, _, _) => Ok(Some(Ty::Int(*i))),
            Expr::Shift(_, i, _, _) | Expr::Cast(_, i, _) => Ok(Some(Ty::Int(*i))),
            Expr::Hide(i, _) => Ok(Some(Ty::Int(hidden(*i)))),
            Expr::Tab(x, _) => Ok(self.table(x)),
            Expr::Make(x, args, _) => self.make(x, args.as_slice()),
            Expr::Con(x, args, _) => self.con(x, args.as_slice()),
            Expr::Call(x, args, _) => self.call(x, args.as_slice()),
            Expr::Alloc(b, _, _) => self.alloc(b),
            Expr::Slice(a, _, _) | Expr::If(_, a, _) => self.expr(vars, frame, a.get()),
            Expr::Frame(slots, a) => self.expr(vars, Some(slots.as_slice()), a.get()),
            Expr::Get(y, a) => {
                let a = self.expr(vars, frame, a.get());
                self.get(y, a)
            }
            Expr::Part(x, j, a) => {
                let a = self.expr(vars, frame, a.get());
                self.part(x, *j, a)
            }
            Expr::Read(a, _) => {
                let a = self.expr(vars, frame, a.get());
                element(a)
            }
            Expr::Match(a, arms) => {
                let s = self.expr(vars, frame, a.get());
                self.branch(vars, frame, arms.as_slice(), s)
            }
            Expr::Do(items, a) => {
                let newer = self.items(items.as_slice());
                self.within(vars, newer, frame, a.get())
            }
            Expr::Cases(cases) => match cases.as_slice() {
                [case, ..] => self.expr(vars, frame, &case.body),
                [] => Ok(None),
            },
            Expr::Fill(k, a) => self.filled(vars, frame, *k, a.get()),
        }
    }

    /// The type of an expression with newer variables in scope.
    #[cycle(label)]
    fn within(
        &self,
        vars: &mut Vars,
        newer: Result<Vars, NoMemory>,
        frame: Option<&[Slot]>,
        e: &Expr,
    ) -> Labelled
        ensures value { IfOk result (λ r. IsOkAnd newer (λ newer. r ≡ labelled_in self.now.names.now e.now (record { vars = newer ++ vars.old; frame = option_copied frame.entry }))) }
        ensures vars { OnOk result (vars.new ≡ vars.old) }
    {
        let before = vars.len();
        vars.append(newer?)?;
        let ty = self.expr(vars, frame, e);
        vars.cut(before);
        ty
    }

    /// The type of a match, whose value has a type.
    #[cycle(label)]
    fn branch(&self, vars: &mut Vars, frame: Option<&[Slot]>, arms: &[Arm], s: Labelled) -> Labelled
        ensures value { IfOk result (λ r. IsOkAnd s (λ s. r ≡ option_and_then (λ s. first_arm (map (arm_labelled self.now.names.now) arms.now) s (record { vars = vars.old; frame = option_copied frame.entry })) s)) }
        ensures vars { OnOk result (vars.new ≡ vars.old) }
    {
        match s? {
            Some(s) => self.first_arm(vars, frame, arms, &s),
            None => Ok(None),
        }
    }

    /// The type of the first branch of a match on a value of a type.
    #[cycle(label)]
    fn first_arm(&self, vars: &mut Vars, frame: Option<&[Slot]>, arms: &[Arm], s: &Ty) -> Labelled
        ensures value { IfOk result (λ r. r ≡ first_arm (map (arm_labelled self.now.names.now) arms.now) s.now (record { vars = vars.old; frame = option_copied frame.entry })) }
        ensures vars { OnOk result (vars.new ≡ vars.old) }
    {
        let [arm, ..] = arms else {
            return Ok(None);
        };
        let newer = self.pattern(&arm.pat, s);
        self.within(vars, newer, frame, &arm.body)
    }

    /// The buffer of a slot.
    #[cycle(label)]
    fn filled(&self, vars: &mut Vars, frame: Option<&[Slot]>, k: u32, first: &Expr) -> Labelled
        ensures value { IfOk result (λ r. r ≡ fill_type (option_copied frame.entry) k (labelled_in self.now.names.now first.now (record { vars = vars.old; frame = option_copied frame.entry }))) }
        ensures vars { OnOk result (vars.new ≡ vars.old) }
    {
        let Some(slots) = frame else {
            let first = self.expr(vars, None, first);
            return buffer_of(self.alloc, first);
        };
        self.slot(slots, k)
    }
}

/// Adds a variable, with copies of its name and its type.
fn add(alloc: Global, vars: &mut Vars, x: &Name, a: &Ty) -> Result<(), NoMemory>
    ensures { OnOk result (vars.new ≡ (x.now, a.now) ∷ vars.old) }
{
    let x = Name::new(alloc, x.as_bytes())?;
    vars.push(x, clone_ty(alloc, a)?)
}

/// The elements of a buffer.
fn element(a: Labelled) -> Labelled
    ensures { IfOk result (λ r. IsOkAnd a (λ a. r ≡ option_and_then (λ a. element_of (out-Ty a)) a)) }
{
    match a? {
        Some(a) => Ok(element_of(a)),
        None => Ok(None),
    }
}

/// The buffer whose first element has a type.
fn buffer_of(alloc: Global, first: Labelled) -> Labelled
    ensures { IfOk result (λ r. IsOkAnd first (λ first. r ≡ fill_type None 0 first)) }
{
    match first? {
        Some(first) => Ok(Some(buffer(alloc, Ok(first))?)),
        None => Ok(None),
    }
}

/// The secret type of a width.
fn hidden(i: IntTy) -> IntTy
    ensures { result ≡ hidden i }
{
    IntTy {
        width: i.width,
        secret: true,
    }
}

/// The variables of a scope, with copies of their types.
fn vars_of(alloc: Global, scope: &[Field]) -> Result<Vars, NoMemory>
    ensures { IfOk result (λ r. r ≡ vars_of_fields scope.now) }
{
    let mut vars = Vars::new(alloc);
    for field in scope {
        add(alloc, &mut vars, &field.name, &field.ty)?;
    }
    Ok(vars)
}

/// The labelled type of an expression in a scope, where it has one.
fn labelled(alloc: Global, names: &Names<'_>, scope: &[Field], e: &Expr) -> Labelled
    ensures { IfOk result (λ r. r ≡ labelled_type names.now scope.now e.now) }
{
    let mut vars = vars_of(alloc, scope)?;
    let labels = Labels { alloc, names };
    labels.expr(&mut vars, None, e)
}

/// The labelled type of an expression that has a type in the scope whose variables are these fields, of which the last
/// one of a name counts: the type that the typing rules give it, with the labels of the types that are written in it.
/// An error is want of memory.
pub fn type_of(alloc: Global, file: &SourceFile, scope: &[Field], e: &Expr) -> Result<Ty, NoMemory>
    requires { IsTypedIn file.now.defs scope.now e.now }
    ensures value { IfOk result (λ r. labelled_type file.now.defs scope.now e.now ≡ Some r) }
    ensures erased { IfOk result (λ r. IsLabelled file.now.defs scope.now e.now r) }
{
    let names = Names::new(alloc, file.defs.as_slice())?;
    let Some(ty) = labelled(alloc, &names, scope, e)? else {
        unreachable!()
    };
    Ok(ty)
}
