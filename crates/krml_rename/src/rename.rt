//! What a pass makes of the names and types of a tree.

ghost use Rattle.std.specs.Prelude.{◌≡◌, IfOk};
ghost use Rattle.krml_rename.specs.Renaming.{Renaming};

use krml_syntax::{Pat, Ty};
use krml_trace::{Name, NoMemory, Seq};
use std::alloc::Global;

/// A name at type arguments.
pub type Applied = (Name, Seq<Ty>);

/// What a pass that keeps every form makes of the names and types that stand in a tree. Each function gives what stands in the
/// place of its argument, or want of memory.
pub trait Rename {
    // what becomes of each
    ghost renaming: { Self → Renaming };

    /// A struct at type arguments.
    fn structure(&self, alloc: Global, x: &Name, args: &[Ty]) -> Result<Applied, NoMemory>
        ensures { IfOk result (λ r. r ≡ (renaming self.now).struct x.now args.now) };

    /// A constructor at type arguments.
    fn con(&self, alloc: Global, x: &Name, args: &[Ty]) -> Result<Applied, NoMemory>
        ensures { IfOk result (λ r. r ≡ (renaming self.now).con x.now args.now) };

    /// A function at type arguments.
    fn fun(&self, alloc: Global, x: &Name, args: &[Ty]) -> Result<Applied, NoMemory>
        ensures { IfOk result (λ r. r ≡ (renaming self.now).fun x.now args.now) };

    /// A field.
    fn field(&self, alloc: Global, y: &Name) -> Result<Name, NoMemory>
        ensures { IfOk result (λ r. r ≡ (renaming self.now).field y.now) };

    /// A table.
    fn table(&self, alloc: Global, x: &Name) -> Result<Name, NoMemory>
        ensures { IfOk result (λ r. r ≡ (renaming self.now).table x.now) };

    /// The constructor that a test or a part asks for.
    fn tag(&self, alloc: Global, x: &Name) -> Result<Name, NoMemory>
        ensures { IfOk result (λ r. r ≡ (renaming self.now).tag x.now) };

    /// A type.
    fn ty(&self, alloc: Global, a: &Ty) -> Result<Ty, NoMemory>
        ensures { IfOk result (λ r. r ≡ (renaming self.now).ty a.now) };

    /// A pattern.
    fn pat(&self, alloc: Global, p: &Pat) -> Result<Pat, NoMemory>
        ensures { IfOk result (λ r. r ≡ (renaming self.now).pat p.now) };
}
