//! Types with labels erased, by number.

ghost use Rattle.std.specs.Prelude.{◌≡◌, List, map, IfOk};
ghost use Rattle.krml_syntax.specs.declared.tree.Ty.{Ty};
ghost use Rattle.krml_syntax.specs.declared.tree.Ty.TheVariants as ty;
ghost use Rattle.krml_syntax.specs.Types.{type_at, erased};
ghost use Rattle.krml_intern.specs.Table.{Means, Grows};
ghost use Rattle.krml_intern.specs.Unlabelled.{AllErased, AreErased};

use crate::labelling::Labelling;
use crate::type_table::TypeTable;
use krml_syntax::Ty;
use krml_trace::{Name, NoMemory};

impl<'a> TypeTable<'a> {
    /// The number of a type with its labels erased. An error is want of memory.
    pub fn erased(&mut self, a: &'a Ty) -> Result<usize, NoMemory>
        ensures value { IfOk result (λ n. Means self.new n (erased a.now)) }
        ensures grows { Grows self.old self.new }
    {
        self.erased_at(&[], &[], a)
    }

    /// The number of the struct or sum of a name at types with their labels erased. An error is want of memory.
    pub fn named(&mut self, x: &'a Name, types: &'a [Ty]) -> Result<usize, NoMemory>
        ensures value { IfOk result (λ n. Means self.new n (ty.Named x.now (map erased types.now))) }
        ensures grows { Grows self.old self.new }
    {
        self.named_at(Labelling::Erased, &[], &[], x, types)
    }

    /// The number of a type with type arguments in place of the type variables and its labels erased, where the arguments
    /// have no labels. A variable that has no argument stays. An error is want of memory.
    pub fn erased_at(&mut self, vars: &[Name], args: &[usize], a: &'a Ty) -> Result<usize, NoMemory>
        requires { AreErased self.old args.now }
        ensures value { IfOk result (λ n. (types : List Ty) → AllErased self.old args.now types → Means self.new n (erased (type_at vars.now types a.now))) }
        ensures grows { Grows self.old self.new }
    {
        self.put_at(Labelling::Erased, vars, args, a)
    }
}
