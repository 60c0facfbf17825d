//! The definitions of a file by name, and which structs hold a buffer.

ghost use Rattle.std.specs.Prelude.{◌≡◌, length, IfOk};
ghost use Rattle.krml_types.specs.Holds.{holds_by, is_set, holders};

use crate::holds::{holds_by, is_set, settled};
use krml_ast::Names;
use krml_syntax::{Def, Ty};
use krml_trace::{Name, NoMemory, Seq};
use std::alloc::Global;
use std::marker::Model;

/// The definitions of a file, found by their names, with a truth value for each: whether it is a struct that holds a buffer.
#[derive(Drop)]
pub struct Index<'a> {
    names: Names<'a>,
    table: Seq<bool>,
    ghost exact: { table ≡ holders names },
}

impl<'a> Model for Index<'a> {
    ghost use Rattle.std.specs.Prelude.{List};
    ghost use Rattle.std.specs.Coded.{codes};
    ghost use Rattle.krml_syntax.specs.declared.tree.Def.{Def};
    ghost use Rattle.krml_syntax.specs.contracts.tree.Ty as ty;
    ghost use Rattle.krml_syntax.specs.contracts.tree.Expr as expr;

    ghost Value = { List Def };

    ghost coded = { Prim.hlevel (codes, ty.the_row.coded, expr.the_row.coded) };

    ghost view = { λ s. s.names };
}

impl<'a> Index<'a> {
    pub fn new(alloc: Global, defs: &'a [Def]) -> Result<Index<'a>, NoMemory>
        ensures { IfOk result (λ r. r ≡ defs.now) }
    {
        let names = Names::new(alloc, defs)?;
        let table = settled(alloc, &names)?;
        Ok(Index { names, table })
    }

    /// The definitions by their names.
    pub fn names(&self) -> &Names<'a>
        ensures { result.now ≡ self.now }
    {
        &self.names
    }

    /// How many definitions there are.
    pub fn len(&self) -> usize
        ensures { result ≡ length self.now }
    {
        self.names.defs().len()
    }

    /// Whether a type holds a buffer.
    pub fn holds(&self, a: &Ty) -> bool
        ensures { result ≡ holds_by self.now (holders self.now) a.now }
    {
        holds_by(&self.names, self.table.as_slice(), a)
    }

    /// Whether the struct of a name holds a buffer.
    pub fn is_holder(&self, x: &Name) -> bool
        ensures { result ≡ is_set self.now (holders self.now) x.now }
    {
        is_set(&self.names, self.table.as_slice(), x)
    }
}
