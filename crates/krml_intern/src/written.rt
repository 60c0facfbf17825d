//! Types as they are written, by number.

ghost use Rattle.std.specs.Prelude.{◌≡◌, List, [], map, IfOk};
ghost use Rattle.std.specs.Option.{MatchOption};
ghost use Rattle.krml_syntax.specs.declared.tree.Ty.{Ty};
ghost use Rattle.krml_syntax.specs.declared.tree.Ty.TheVariants as ty;
ghost use Rattle.krml_syntax.specs.Types.{argument_of, type_at};
ghost use Rattle.krml_intern.specs.Labels.{labelled};
ghost use Rattle.krml_intern.specs.Table.{Table, Means, AllMean, AreKnown, Grows};

use crate::labelling::Labelling;
use crate::type_table::TypeTable;
use krml_syntax::{IntTy, Ty};
use krml_trace::{Name, NoMemory};

/// The argument of a type variable, if it has one.
fn argument_of(vars: &[Name], args: &[usize], x: &Name) -> Option<usize>
    ensures { (t : Table) (types : List Ty) → AllMean t args.now types → MatchOption result (argument_of vars.now types x.now ≡ ty.Var x.now) (λ k. Means t k (argument_of vars.now types x.now)) }
{
    let [v, vars @ ..] = vars else {
        return None;
    };
    let [a, args @ ..] = args else {
        return None;
    };
    if v.is(x) {
        return Some(*a);
    }
    argument_of(vars, args, x)
}

impl<'a> TypeTable<'a> {
    /// The number of a type. An error is want of memory.
    pub fn intern(&mut self, a: &'a Ty) -> Result<usize, NoMemory>
        ensures value { IfOk result (λ n. Means self.new n a.now) }
        ensures grows { Grows self.old self.new }
    {
        self.at(&[], &[], a)
    }

    /// The number of the struct or sum of a name at types. An error is want of memory.
    pub fn applied(&mut self, x: &'a Name, types: &'a [Ty]) -> Result<usize, NoMemory>
        ensures value { IfOk result (λ n. Means self.new n (ty.Named x.now types.now)) }
        ensures grows { Grows self.old self.new }
    {
        self.named_at(Labelling::Kept, &[], &[], x, types)
    }

    /// The number of a type with type arguments in place of the type variables. A variable that has no argument stays. An
    /// error is want of memory.
    pub fn at(&mut self, vars: &[Name], args: &[usize], a: &'a Ty) -> Result<usize, NoMemory>
        requires { AreKnown self.old args.now }
        ensures value { IfOk result (λ n. (types : List Ty) → AllMean self.old args.now types → Means self.new n (type_at vars.now types a.now)) }
        ensures grows { Grows self.old self.new }
    {
        self.put_at(Labelling::Kept, vars, args, a)
    }

    /// The number of a type with its labels kept or erased and type arguments in place of the type variables, whatever labels
    /// the arguments have. A variable that has no argument stays. An error is want of memory.
    #[cycle(put_at)]
    pub(crate) fn put_at(
        &mut self,
        labels: Labelling,
        vars: &[Name],
        args: &[usize],
        a: &'a Ty,
    ) -> Result<usize, NoMemory>
        requires { AreKnown self.old args.now }
        ensures value { IfOk result (λ n. (types : List Ty) → AllMean self.old args.now types → Means self.new n (type_at vars.now types (labelled labels a.now))) }
        ensures grows { Grows self.old self.new }
    {
        match a {
            Ty::Bool => self.bool(),
            Ty::Unit => self.unit(),
            Ty::Int(i) => self.int_at(labels, *i),
            Ty::Buf(b) => {
                let k = self.put_at(labels, vars, args, b.get())?;
                self.buf(k)
            }
            Ty::Var(x) => self.var_at(vars, args, x),
            Ty::Named(x, types) => self.named_at(labels, vars, args, x, types.as_slice()),
        }
    }

    /// The same of an integer type.
    fn int_at(&mut self, labels: Labelling, i: IntTy) -> Result<usize, NoMemory>
        ensures value { IfOk result (λ n. Means self.new n (labelled labels (ty.Int i))) }
        ensures grows { Grows self.old self.new }
    {
        match labels {
            Labelling::Kept => self.int(i),
            Labelling::Erased => self.public(i),
        }
    }

    /// The same of a type variable.
    fn var_at(&mut self, vars: &[Name], args: &[usize], x: &'a Name) -> Result<usize, NoMemory>
        ensures value { IfOk result (λ n. (types : List Ty) → AllMean self.old args.now types → Means self.new n (argument_of vars.now types x.now)) }
        ensures grows { Grows self.old self.new }
    {
        match argument_of(vars, args, x) {
            Some(k) => Ok(k),
            None => self.var(x),
        }
    }

    /// The same of a struct or a sum.
    #[cycle(put_at)]
    #[tactic(auto, using(crate::proofs::Puts::known_still))]
    pub(crate) fn named_at(
        &mut self,
        labels: Labelling,
        vars: &[Name],
        args: &[usize],
        x: &'a Name,
        types: &'a [Ty],
    ) -> Result<usize, NoMemory>
        requires { AreKnown self.old args.now }
        ensures value { IfOk result (λ n. (all : List Ty) → AllMean self.old args.now all → Means self.new n (ty.Named x.now (map (type_at vars.now all) (map (labelled labels) types.now)))) }
        ensures grows { Grows self.old self.new }
    {
        let mut f = self.head(x)?;
        for a in types {
            let k = self.put_at(labels, vars, args, a)?;
            f = self.app(f, k)?;
        }
        Ok(f)
    }
}
