//! The file of a text whose definitions are well typed.

ghost use Rattle.std.specs.Prelude.{◌≡◌, None};
ghost use Rattle.krml_ast.specs.WellTyped.{AreWellTyped};
ghost use Rattle.krml_ast.specs.FileTypes.{IsTypedFile};
ghost use Rattle.krml_types.specs.Check.{first_fault};

use krml_syntax::SourceFile;
use std::marker::Model;

/// A file that some text within the limits spells, whose definitions are well typed.
#[derive(Drop)]
pub struct TypedFile {
    inner: SourceFile,
    ghost typed: { first_fault inner.defs ≡ None },
    ghost form: { ∥ IsTypedFile inner ∥₁ },
}

impl Model for TypedFile {
    ghost use Rattle.std.specs.Coded.{codes};
    ghost use Rattle.krml_syntax.specs.declared.tree.SourceFile.{SourceFile as Tree};
    ghost use Rattle.krml_syntax.specs.contracts.tree.Ty as ty;
    ghost use Rattle.krml_syntax.specs.contracts.tree.Expr as expr;

    ghost Value = { Tree };

    ghost coded = { Prim.hlevel (codes, ty.the_row.coded, expr.the_row.coded) };

    ghost view = { λ s. s.inner };
}

impl TypedFile {
    pub(crate) fn new(inner: SourceFile) -> TypedFile
        requires typed { first_fault inner.defs ≡ None }
        requires form { ∥ IsTypedFile inner ∥₁ }
        ensures { result ≡ inner }
    {
        TypedFile { inner }
    }

    /// The file.
    pub fn file(&self) -> &SourceFile
        ensures value { result.now ≡ self.now }
        ensures typed { AreWellTyped self.now.defs }
        ensures form { ∥ IsTypedFile self.now ∥₁ }
    {
        &self.inner
    }

    /// The file, taken out.
    pub fn into_file(self) -> SourceFile
        ensures value { result ≡ self }
        ensures typed { AreWellTyped self.defs }
        ensures form { ∥ IsTypedFile self ∥₁ }
    {
        let TypedFile { inner, .. } = self;
        inner
    }
}
