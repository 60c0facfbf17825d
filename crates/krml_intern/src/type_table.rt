//! Types by number.

ghost use Rattle.std.specs.Prelude.{◌≡◌, ℕ, List, [], ◌∷◌, ◌++◌, Some, IfOk, option_map};
ghost use Rattle.std.specs.Bool.{Decides};
ghost use Rattle.krml_syntax.specs.declared.tree.Ty.{Ty, out-Ty};
ghost use Rattle.krml_syntax.specs.declared.tree.Ty.TheVariants as ty;
ghost use Rattle.krml_syntax.specs.Types.{int_ty, is_unit_in, element_of};
ghost use Rattle.krml_intern.specs.declared.node.Node.{Node as At};
ghost use Rattle.krml_intern.specs.Table.{Means, Names, Grows, Stands, IsBelow, IsNumber, IsNamed, AllMean, head_of};

use crate::name_table::NameTable;
use crate::node::Node;
use crate::nodes::Nodes;
use krml_syntax::{IntTy, Ty};
use krml_trace::{Name, NoMemory, Seq};
use std::alloc::Global;
use std::marker::Model;

/// Types by number: each type has one number, and two types have two.
#[derive(Drop)]
pub struct TypeTable<'a> {
    pub(crate) alloc: Global,
    pub(crate) names: NameTable<'a>,
    nodes: Nodes,
}

impl<'a> Model for TypeTable<'a> {
    ghost use Rattle.std.specs.Coded.{codes};
    ghost use Rattle.krml_syntax.specs.contracts.tree.Ty as contract;
    ghost use Rattle.krml_intern.specs.Table.{Table, types_of, IsTable};

    ghost Value = { Table };

    ghost coded = { Prim.hlevel (codes, contract.the_row.coded) };

    ghost view = { λ s. record { names = s.names; types = types_of s.names s.nodes } };

    ghost invariant = { λ s. IsTable s.names s.nodes };
}

impl<'a> TypeTable<'a> {
    /// No types.
    pub fn new(alloc: Global) -> TypeTable<'a>
        ensures { result ≡ record { names = []; types = [] } }
    {
        TypeTable {
            alloc,
            names: NameTable::new(alloc),
            nodes: Nodes::new(alloc),
        }
    }

    /// The first layer of the type of a number.
    pub(crate) fn node(&self, k: usize) -> Option<Node>
        ensures below { (x : At) → result ≡ Some x → IsBelow k x }
        ensures stands { (a : Ty) → Means self.now k a → (x : At) × (result ≡ Some x) × Stands self.now x a }
    {
        self.nodes.get(k)
    }

    /// The number of the type that a node stands for. An error is want of memory.
    fn put(&mut self, node: Node) -> Result<usize, NoMemory>
        requires { (a : Ty) × Stands self.old node a }
        ensures value { IfOk result (λ k. (a : Ty) → Stands self.old node a → Means self.new k a) }
        ensures grows { Grows self.old self.new }
    {
        let k = self.nodes.put(node)?;
        Ok(k)
    }

    /// The number of a name. An error is want of memory.
    fn name(&mut self, x: &'a Name) -> Result<usize, NoMemory>
        ensures value { IfOk result (λ k. Names self.new k x.now) }
        ensures grows { Grows self.old self.new }
    {
        let k = self.names.put(x)?;
        Ok(k)
    }

    /// The number of `bool`. An error is want of memory.
    pub fn bool(&mut self) -> Result<usize, NoMemory>
        ensures value { IfOk result (λ k. Means self.new k ty.Bool) }
        ensures grows { Grows self.old self.new }
    {
        self.put(Node::Bool)
    }

    /// The number of `unit`. An error is want of memory.
    pub fn unit(&mut self) -> Result<usize, NoMemory>
        ensures value { IfOk result (λ k. Means self.new k ty.Unit) }
        ensures grows { Grows self.old self.new }
    {
        self.put(Node::Unit)
    }

    /// The number of an integer type. An error is want of memory.
    pub fn int(&mut self, i: IntTy) -> Result<usize, NoMemory>
        ensures value { IfOk result (λ n. Means self.new n (ty.Int i)) }
        ensures grows { Grows self.old self.new }
    {
        self.put(Node::Int(i))
    }

    /// The number of the public integer type of a width. An error is want of memory.
    pub fn public(&mut self, i: IntTy) -> Result<usize, NoMemory>
        ensures value { IfOk result (λ n. Means self.new n (int_ty i)) }
        ensures grows { Grows self.old self.new }
    {
        self.int(IntTy {
            width: i.width,
            secret: false,
        })
    }

    /// The number of the buffers of a type. An error is want of memory.
    pub fn buf(&mut self, k: usize) -> Result<usize, NoMemory>
        requires { (a : Ty) × Means self.old k a }
        ensures value { IfOk result (λ n. (a : Ty) → Means self.old k a → Means self.new n (ty.Buf a)) }
        ensures grows { Grows self.old self.new }
    {
        self.put(Node::Buf(k))
    }

    /// The number of a type variable. An error is want of memory.
    pub(crate) fn var(&mut self, x: &'a Name) -> Result<usize, NoMemory>
        ensures value { IfOk result (λ n. Means self.new n (ty.Var x.now)) }
        ensures grows { Grows self.old self.new }
    {
        let k = self.name(x)?;
        self.put(Node::Var(k))
    }

    /// The number of a struct or a sum at no type arguments. An error is want of memory.
    pub(crate) fn head(&mut self, x: &'a Name) -> Result<usize, NoMemory>
        ensures value { IfOk result (λ n. Means self.new n (ty.Named x.now [])) }
        ensures grows { Grows self.old self.new }
    {
        let k = self.name(x)?;
        self.put(Node::Head(k))
    }

    /// The number of a struct or a sum at one type argument more. An error is want of memory.
    pub(crate) fn app(&mut self, f: usize, k: usize) -> Result<usize, NoMemory>
        requires { (x : List ℕ) × (args : List Ty) × (a : Ty) × Means self.old f (ty.Named x args) × Means self.old k a }
        ensures value { IfOk result (λ n. (x : List ℕ) (args : List Ty) (a : Ty) → Means self.old f (ty.Named x args) → Means self.old k a → Means self.new n (ty.Named x (args ++ a ∷ []))) }
        ensures grows { Grows self.old self.new }
    {
        self.put(Node::App(f, k))
    }

    /// The number of a struct or a sum under another name, at the same type arguments. An error is want of memory.
    #[cycle(renamed)]
    pub fn renamed(&mut self, k: usize, x: &'a Name) -> Result<usize, NoMemory>
        requires { IsNamed self.old k }
        ensures value { IfOk result (λ n. (y : List ℕ) (args : List Ty) → Means self.old k (ty.Named y args) → Means self.new n (ty.Named x.now args)) }
        ensures grows { Grows self.old self.new }
    {
        let Some(node) = self.node(k) else {
            return self.head(x);
        };
        let Node::App(f, j) = node else {
            return self.head(x);
        };
        let g = self.renamed(f, x)?;
        self.app(g, j)
    }

    /// Whether two numbers are of one type.
    pub fn same(&self, j: usize, k: usize) -> bool
        ensures { (a b : Ty) → Means self.now j a → Means self.now k b → Decides result (a ≡ b) }
    {
        let _ = &self.names;
        j == k
    }

    /// Whether a type is `unit`.
    pub fn is_unit(&self, k: usize) -> bool
        ensures { (a : Ty) → Means self.now k a → result ≡ is_unit_in (out-Ty a) }
    {
        let Some(node) = self.node(k) else {
            return false;
        };
        matches!(node, Node::Unit)
    }

    /// The elements of a buffer.
    pub fn element(&self, k: usize) -> Option<usize>
        ensures { (a : Ty) → Means self.now k a → IsNumber self.now result (element_of (out-Ty a)) }
    {
        let Some(node) = self.node(k) else {
            return None;
        };
        node.element()
    }

    /// The name of a struct or a sum.
    #[cycle(name_of)]
    pub fn name_of(&self, k: usize) -> Option<&'a Name>
        ensures { (a : Ty) → Means self.now k a → option_map (λ x. x.now) result ≡ head_of (out-Ty a) }
    {
        let Some(node) = self.node(k) else {
            return None;
        };
        match node {
            Node::Head(x) => self.names.get(x),
            Node::App(f, _) => self.name_of(f),
            _ => None,
        }
    }

    /// The type arguments of a struct or a sum. An error is want of memory.
    #[cycle(arguments)]
    pub fn arguments(&self, k: usize) -> Result<Seq<usize>, NoMemory>
        ensures { IfOk result (λ ks. (x : List ℕ) (args : List Ty) → Means self.now k (ty.Named x args) → AllMean self.now ks args) }
    {
        let Some(node) = self.node(k) else {
            return Ok(Seq::new(self.alloc));
        };
        let Node::App(f, j) = node else {
            return Ok(Seq::new(self.alloc));
        };
        let mut args = self.arguments(f)?;
        args.push(j)?;
        Ok(args)
    }
}
