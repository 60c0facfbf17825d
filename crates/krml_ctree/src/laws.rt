//! Laws about texts and programs, as contracts of calls that do nothing.

ghost use Rattle.std.specs.Prelude.{List, ℕ, ◌≡◌, ◌↔◌};
ghost use Rattle.krml_ctree.specs.declared.tree.CProgram.{CProgram};
ghost use Rattle.krml_ctree.specs.Shape.{KeepsShapes};
ghost use Rattle.krml_ctree.specs.Spelling.{SpellsProgram};
ghost use Rattle.krml_ctree.specs.Text.{text_of, tokens_of};
ghost use Rattle.krml_ctree.specs.WellFormed.{WellFormed};

/// The text of a program spells it. The program needs to keep the shapes, and need not be well formed.
pub fn text_spells()
    ensures { (p : CProgram) → KeepsShapes p → SpellsProgram (text_of p) p }
{}

/// Programs that have equal tokens are equal. Both need to keep the shapes.
pub fn one_program()
    ensures { (p q : CProgram) → KeepsShapes p → KeepsShapes q → tokens_of p ≡ tokens_of q → p ≡ q }
{}

/// A text spells at most one program. It may be any text, and the programs need nothing beside.
pub fn one_spelled()
    ensures { (text : List ℕ) (p q : CProgram) → SpellsProgram text p → SpellsProgram text q → p ≡ q }
{}

/// The text of a program spells it, and no other program. It needs to be well formed, and the other program needs nothing.
pub fn spelled_alone()
    ensures { (p q : CProgram) → WellFormed p → SpellsProgram (text_of p) q ↔ (q ≡ p) }
{}
