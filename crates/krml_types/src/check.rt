//! Checking the types of a file.

ghost use Rattle.std.specs.Prelude.{◌≡◌, IfOk};
ghost use Rattle.krml_ast.specs.FileTypes.{IsSpelled};
ghost use Rattle.krml_types.specs.Check.{fault_from, first_fault, IsRightAnswer};

use crate::index::Index;
use crate::judge::Judge;
use crate::refusal::TypeRefusal;
use crate::typed_file::TypedFile;
use krml_syntax::{Def, SourceFile};
use krml_trace::{NoMemory, count};
use std::alloc::Global;

impl<'n, 'a> Judge<'n, 'a> {
    /// The first definition that is not well typed.
    #[tactic(auto, unfolding(crate::specs::Check::first_fault))]
    fn first_fault(&mut self, defs: &'a [Def]) -> Result<Option<usize>, NoMemory>
        requires { self.old.place.defs ≡ defs.now }
        ensures { IfOk result (λ r. r ≡ first_fault defs.now) }
    {
        for (k, def) in defs.iter().enumerate() {
            if !self.is_well_typed(k, def)? {
                return Ok(Some(k));
            }
        }
        Ok(None)
    }
}

fn first_fault(alloc: Global, defs: &[Def]) -> Result<Option<usize>, NoMemory>
    ensures { IfOk result (λ r. r ≡ first_fault defs.now) }
{
    let index = Index::new(alloc, defs)?;
    let mut judge = Judge::new(alloc, &index);
    judge.first_fault(defs)
}

/// The file with its types, where all its definitions are well typed. Else `Fault` has the place of the first that is not.
/// Some text within the limits is to spell the file, as reading it says.
pub fn check_types(alloc: Global, file: SourceFile) -> Result<TypedFile, TypeRefusal>
    requires spelled { ∥ IsSpelled file ∥₁ }
    ensures typed { IfOk result (λ r. r ≡ file) }
    ensures answer { IsRightAnswer file.defs result }
{
    match first_fault(alloc, file.defs.as_slice())? {
        None => Ok(TypedFile::new(file)),
        Some(k) => match count(k) {
            Ok(def) => Err(TypeRefusal::Fault { def }),
            Err(_) => Err(TypeRefusal::NoMemory),
        },
    }
}
