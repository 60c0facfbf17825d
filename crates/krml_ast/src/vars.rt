ghost use Rattle.std.specs.Prelude.{◌≡◌, ◌∷◌, [], ◌++◌, ◌-◌, IfOk, OnOk, length, reverse};
ghost use Rattle.krml_ast.specs.Typing.{look};
ghost use Rattle.krml_intern.specs.Scope.{cut, is_new, are_distinct};

use krml_rename::clone_ty;
use krml_syntax::Ty;
use krml_trace::{Name, NoMemory};
use std::alloc::Global;
use std::marker::Model;

/// Variables and their types, the newest last.
#[derive(Drop)]
pub struct Vars {
    items: Vec<(Name, Ty)>,
}

impl Model for Vars {
    ghost use Rattle.std.specs.Prelude.{List, ℕ, reverse};
    ghost use Rattle.std.specs.Coded.{codes};
    ghost use Rattle.krml_syntax.specs.declared.tree.Ty.{Ty};
    ghost use Rattle.krml_syntax.specs.contracts.tree.Ty as ty;

    ghost Value = { List (List ℕ × Ty) };

    ghost coded = { Prim.hlevel (codes, ty.the_row.coded) };

    ghost view = { λ s. reverse s.items.items };
}

impl Vars {
    /// No variables.
    pub fn new(alloc: Global) -> Vars
        ensures { result ≡ [] }
    {
        Vars {
            items: Vec::new(alloc),
        }
    }

    /// How many there are.
    pub fn len(&self) -> usize
        ensures { result ≡ length self.now }
    {
        self.items.len()
    }

    /// One more variable, the newest. An error is want of memory.
    pub fn push(&mut self, name: Name, ty: Ty) -> Result<(), NoMemory>
        ensures { OnOk result (self.new ≡ (name, ty) ∷ self.old) }
    {
        self.items.push((name, ty))?;
        Ok(())
    }

    /// Newer variables, over these. An error is want of memory.
    pub fn append(&mut self, newer: Vars) -> Result<(), NoMemory>
        ensures { OnOk result (self.new ≡ newer ++ self.old) }
    {
        let Vars { mut items } = newer;
        self.items.append(&mut items)?;
        Ok(())
    }

    /// Leaves the oldest variables, so many.
    pub fn cut(&mut self, len: usize)
        ensures { self.new ≡ cut len self.old }
    {
        self.items.truncate(len);
    }

    /// The type of the newest variable of a name. An error is want of memory.
    pub fn look(&self, alloc: Global, x: &Name) -> Result<Option<Ty>, NoMemory>
        ensures { IfOk result (λ r. r ≡ look self.now x.now) }
    {
        newest(alloc, self.items.as_slice(), x)
    }

    /// No two have one name.
    pub fn are_distinct(&self) -> bool
        ensures { result ≡ are_distinct self.now }
    {
        each_is_new(self.items.as_slice())
    }
}

// The newest variable stands last.
fn newest(alloc: Global, items: &[(Name, Ty)], x: &Name) -> Result<Option<Ty>, NoMemory>
    ensures { IfOk result (λ r. r ≡ look (reverse items.now) x.now) }
{
    let n = items.len();
    if n == 0 {
        return Ok(None);
    }
    let (name, ty) = &items[n - 1];
    if name.as_bytes() == x.as_bytes() {
        return Ok(Some(clone_ty(alloc, ty)?));
    }
    newest(alloc, &items[..n - 1], x)
}

fn is_new(items: &[(Name, Ty)], x: &Name) -> bool
    ensures { result ≡ is_new (reverse items.now) x.now }
{
    let n = items.len();
    n == 0 || x.as_bytes() != items[n - 1].0.as_bytes() && is_new(&items[..n - 1], x)
}

fn each_is_new(items: &[(Name, Ty)]) -> bool
    ensures { result ≡ are_distinct (reverse items.now) }
{
    let n = items.len();
    n == 0 || is_new(&items[..n - 1], &items[n - 1].0) && each_is_new(&items[..n - 1])
}
