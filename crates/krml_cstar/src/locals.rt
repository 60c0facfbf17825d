//! The variables in scope.

ghost use Rattle.std.specs.Prelude.{◌≡◌, ◌∷◌, [], OnOk, length, option_map};
ghost use Rattle.krml_cstar.specs.Variables.{look};
ghost use Rattle.krml_cstar.specs.Scopes.{known, cut};

use krml_ast::Ty;
use krml_intern::Scope;
use krml_trace::{Name, NoMemory};
use std::alloc::Global;
use std::marker::Model;

/// A variable: as the source names it, as C names it, and its type.
#[derive(Drop)]
pub struct Local<'a> {
    pub name: &'a Name,
    pub emitted: Name,
    pub ty: Ty,
}

/// The variables in scope, and the place of the newest of each name. Contracts see the newest first.
#[derive(Drop)]
pub struct Locals<'a> {
    items: Vec<Local<'a>>,
    places: Scope<'a>,
}

impl<'a> Model for Locals<'a> {
    ghost use Rattle.std.specs.Prelude.{◌≡◌, List, map, reverse};
    ghost use Rattle.std.specs.Coded.{codes};
    ghost use Rattle.krml_syntax.specs.contracts.tree.Ty as ty;
    ghost use Rattle.krml_cstar.specs.Variables.{Known};
    ghost use Rattle.krml_cstar.specs.Scopes.{known, placed};

    ghost Value = { List Known };

    ghost coded = { Prim.hlevel (codes, ty.the_row.coded) };

    ghost view = { λ s. reverse (map known s.items.items) };

    ghost invariant = { λ s. s.places ≡ placed (reverse (map known s.items.items)) };
}

impl<'a> Locals<'a> {
    /// No variables.
    pub fn new(alloc: Global) -> Locals<'a>
        ensures { result ≡ [] }
    {
        Locals {
            items: Vec::new(alloc),
            places: Scope::new(alloc),
        }
    }

    /// How many there are.
    pub fn len(&self) -> usize
        ensures { result ≡ length self.now }
    {
        self.items.len()
    }

    /// One more variable, the newest. An error is want of memory.
    pub fn push(&mut self, local: Local<'a>) -> Result<(), NoMemory>
        ensures { OnOk result (self.new ≡ known local.entry ∷ self.old) }
    {
        let name = local.name;
        let n = self.items.len();
        self.items.push(local)?;
        match self.places.push(name.as_bytes(), n) {
            Ok(()) => Ok(()),
            Err(_) => {
                self.items.truncate(n);
                Err(NoMemory)
            }
        }
    }

    /// Leaves the oldest variables, so many.
    pub fn cut(&mut self, len: usize)
        ensures { self.new ≡ cut len self.old }
    {
        self.items.truncate(len);
        self.places.cut(len);
    }

    /// The newest variable of a name.
    pub fn look<'s>(&'s self, x: &Name) -> Option<&'s Local<'a>>
        ensures { option_map (λ l. known l.now) result ≡ look self.now x.now }
    {
        let k = self.places.look(x.as_bytes())?;
        self.items.get(k)
    }
}
