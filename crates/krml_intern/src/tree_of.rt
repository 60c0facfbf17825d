//! Types by number, as trees.

ghost use Rattle.std.specs.Prelude.{◌≡◌, List, ℕ, [], ◌∷◌, ◌++◌, Some, IfOk, IsOkAnd, option_map};
ghost use Rattle.krml_syntax.specs.declared.tree.Ty.{Ty};
ghost use Rattle.krml_syntax.specs.declared.tree.Ty.TheVariants as ty;
ghost use Rattle.krml_intern.specs.Table.{Means};

use crate::node::Node;
use crate::type_table::TypeTable;
use krml_syntax::Ty;
use krml_trace::{Box, Name, NoMemory, Seq, both};
use std::alloc::Global;

/// A tree, where there is one, or want of memory.
type Tree = Result<Option<Ty>, NoMemory>;

/// The buffers of a type.
fn buffer_of(alloc: Global, a: Tree) -> Tree
    ensures { IfOk result (λ r. IsOkAnd a (λ a. r ≡ option_map ty.Buf a)) }
{
    match a {
        Ok(Some(a)) => Ok(Some(Ty::Buf(Box::new(alloc, a)?))),
        Ok(None) => Ok(None),
        Err(e) => Err(e),
    }
}

/// The type variable of a name.
fn variable_of(alloc: Global, x: Option<&Name>) -> Tree
    ensures { IfOk result (λ r. r ≡ option_map ty.Var (option_map (λ x. x.now) x.entry)) }
{
    let Some(x) = x else {
        return Ok(None);
    };
    let x = x.copy(alloc)?;
    Ok(Some(Ty::Var(x)))
}

/// The struct or sum of a name, at no type arguments.
fn head_of(alloc: Global, x: Option<&Name>) -> Tree
    ensures { IfOk result (λ r. r ≡ option_map (λ x. ty.Named x []) (option_map (λ x. x.now) x.entry)) }
{
    let Some(x) = x else {
        return Ok(None);
    };
    let x = x.copy(alloc)?;
    Ok(Some(Ty::Named(x, Seq::new(alloc))))
}

/// A struct or a sum at one type argument more.
fn extended(x: Name, args: Seq<Ty>, a: Ty) -> Tree
    ensures { IfOk result (λ r. r ≡ Some (ty.Named x (args ++ a ∷ []))) }
{
    let mut args = args;
    args.push(a)?;
    Ok(Some(Ty::Named(x, args)))
}

/// The same of trees, where there are both and the first is that of a struct or a sum.
fn applied_both(f: Option<Ty>, a: Option<Ty>) -> Tree
    ensures { IfOk result (λ r. (x : List ℕ) (args : List Ty) (b : Ty) → f ≡ Some (ty.Named x args) → a ≡ Some b → r ≡ Some (ty.Named x (args ++ b ∷ []))) }
{
    match a {
        Some(a) => match f {
            Some(Ty::Named(x, args)) => extended(x, args, a),
            _ => Ok(None),
        },
        None => Ok(None),
    }
}

/// The same, of what trees came to.
fn applied_to(f: Tree, a: Tree) -> Tree
    ensures { IfOk result (λ r. IsOkAnd f (λ f. IsOkAnd a (λ a. (x : List ℕ) (args : List Ty) (b : Ty) → f ≡ Some (ty.Named x args) → a ≡ Some b → r ≡ Some (ty.Named x (args ++ b ∷ []))))) }
{
    match both(f, a) {
        Ok((f, a)) => applied_both(f, a),
        Err(e) => Err(e),
    }
}

impl<'a> TypeTable<'a> {
    /// The type of a number, as a tree. An error is want of memory.
    #[cycle(tree)]
    pub fn tree(&self, k: usize) -> Result<Option<Ty>, NoMemory>
        ensures { IfOk result (λ r. (a : Ty) → Means self.now k a → r ≡ Some a) }
    {
        let Some(node) = self.node(k) else {
            return Ok(None);
        };
        match node {
            Node::Bool => Ok(Some(Ty::Bool)),
            Node::Unit => Ok(Some(Ty::Unit)),
            Node::Int(i) => Ok(Some(Ty::Int(i))),
            Node::Buf(j) => buffer_of(self.alloc, self.tree(j)),
            Node::Var(x) => variable_of(self.alloc, self.names.get(x)),
            Node::Head(x) => head_of(self.alloc, self.names.get(x)),
            Node::App(f, j) => applied_to(self.tree(f), self.tree(j)),
        }
    }
}
