//! Files between the passes. Each type keeps the form that its pass gives, and gives back the file that it was made of.

ghost use Rattle.std.specs.Prelude.{◌≡◌, option_map};
ghost use Rattle.krml_ast.specs.FileTypes.{IsChecked, IsMono, IsPlain, IsHoisted, IsBundled, emitted_name};

use krml_syntax::SourceFile;
use krml_trace::{Name, Seq};
use std::marker::Model;

/// A file that some text within the limits spells, whose definitions are well typed.
#[derive(Drop)]
pub struct CheckedFile {
    inner: SourceFile,
    ghost form: { ∥ IsChecked inner ∥₁ },
}

impl Model for CheckedFile {
    ghost use Rattle.std.specs.Coded.{codes};
    ghost use Rattle.krml_syntax.specs.declared.tree.SourceFile.{SourceFile as Tree};
    ghost use Rattle.krml_syntax.specs.contracts.tree.Ty as ty;
    ghost use Rattle.krml_syntax.specs.contracts.tree.Expr as expr;

    ghost Value = { Tree };

    ghost coded = { Prim.hlevel (codes, ty.the_row.coded, expr.the_row.coded) };

    ghost view = { λ s. s.inner };
}

impl CheckedFile {
    /// The file as one of this form.
    pub fn of(file: SourceFile) -> CheckedFile
        requires { ∥ IsChecked file ∥₁ }
        ensures { result ≡ file }
    {
        CheckedFile { inner: file }
    }

    /// The file.
    pub fn file(&self) -> &SourceFile
        ensures value { result.now ≡ self.now }
        ensures form { ∥ IsChecked self.now ∥₁ }
    {
        &self.inner
    }

    /// The file, taken out.
    pub fn into_file(self) -> SourceFile
        ensures value { result ≡ self }
        ensures form { ∥ IsChecked self ∥₁ }
    {
        let CheckedFile { inner, .. } = self;
        inner
    }
}

/// A file without type variables and type arguments.
#[derive(Drop)]
pub struct MonoFile {
    inner: SourceFile,
    ghost form: { ∥ IsMono inner ∥₁ },
}

impl Model for MonoFile {
    ghost use Rattle.std.specs.Coded.{codes};
    ghost use Rattle.krml_syntax.specs.declared.tree.SourceFile.{SourceFile as Tree};
    ghost use Rattle.krml_syntax.specs.contracts.tree.Ty as ty;
    ghost use Rattle.krml_syntax.specs.contracts.tree.Expr as expr;

    ghost Value = { Tree };

    ghost coded = { Prim.hlevel (codes, ty.the_row.coded, expr.the_row.coded) };

    ghost view = { λ s. s.inner };
}

impl MonoFile {
    /// The file as one of this form.
    pub fn of(file: SourceFile) -> MonoFile
        requires { ∥ IsMono file ∥₁ }
        ensures { result ≡ file }
    {
        MonoFile { inner: file }
    }

    /// The file.
    pub fn file(&self) -> &SourceFile
        ensures value { result.now ≡ self.now }
        ensures form { ∥ IsMono self.now ∥₁ }
    {
        &self.inner
    }

    /// The file, taken out.
    pub fn into_file(self) -> SourceFile
        ensures value { result ≡ self }
        ensures form { ∥ IsMono self ∥₁ }
    {
        let MonoFile { inner, .. } = self;
        inner
    }
}

/// A file with cases in place of matches.
#[derive(Drop)]
pub struct PlainFile {
    inner: SourceFile,
    ghost form: { ∥ IsPlain inner ∥₁ },
}

impl Model for PlainFile {
    ghost use Rattle.std.specs.Coded.{codes};
    ghost use Rattle.krml_syntax.specs.declared.tree.SourceFile.{SourceFile as Tree};
    ghost use Rattle.krml_syntax.specs.contracts.tree.Ty as ty;
    ghost use Rattle.krml_syntax.specs.contracts.tree.Expr as expr;

    ghost Value = { Tree };

    ghost coded = { Prim.hlevel (codes, ty.the_row.coded, expr.the_row.coded) };

    ghost view = { λ s. s.inner };
}

impl PlainFile {
    /// The file as one of this form.
    pub fn of(file: SourceFile) -> PlainFile
        requires { ∥ IsPlain file ∥₁ }
        ensures { result ≡ file }
    {
        PlainFile { inner: file }
    }

    /// The file.
    pub fn file(&self) -> &SourceFile
        ensures value { result.now ≡ self.now }
        ensures form { ∥ IsPlain self.now ∥₁ }
    {
        &self.inner
    }

    /// The file, taken out.
    pub fn into_file(self) -> SourceFile
        ensures value { result ≡ self }
        ensures form { ∥ IsPlain self ∥₁ }
    {
        let PlainFile { inner, .. } = self;
        inner
    }
}

/// A file whose frames list their slots, with fills in place of allocations.
#[derive(Drop)]
pub struct HoistedFile {
    inner: SourceFile,
    ghost form: { ∥ IsHoisted inner ∥₁ },
}

impl Model for HoistedFile {
    ghost use Rattle.std.specs.Coded.{codes};
    ghost use Rattle.krml_syntax.specs.declared.tree.SourceFile.{SourceFile as Tree};
    ghost use Rattle.krml_syntax.specs.contracts.tree.Ty as ty;
    ghost use Rattle.krml_syntax.specs.contracts.tree.Expr as expr;

    ghost Value = { Tree };

    ghost coded = { Prim.hlevel (codes, ty.the_row.coded, expr.the_row.coded) };

    ghost view = { λ s. s.inner };
}

impl HoistedFile {
    /// The file as one of this form.
    pub fn of(file: SourceFile) -> HoistedFile
        requires { ∥ IsHoisted file ∥₁ }
        ensures { result ≡ file }
    {
        HoistedFile { inner: file }
    }

    /// The file.
    pub fn file(&self) -> &SourceFile
        ensures value { result.now ≡ self.now }
        ensures form { ∥ IsHoisted self.now ∥₁ }
    {
        &self.inner
    }

    /// The file, taken out.
    pub fn into_file(self) -> SourceFile
        ensures value { result ≡ self }
        ensures form { ∥ IsHoisted self ∥₁ }
    {
        let HoistedFile { inner, .. } = self;
        inner
    }
}

/// The emitted name of an entry.
#[derive(Drop)]
pub struct Emitted {
    /// As the source names it.
    pub entry: Name,
    /// As C names it.
    pub name: Name,
}

/// A file with the names that C has, and the emitted name of each entry.
#[derive(Drop)]
pub struct BundledFile {
    inner: SourceFile,
    names: Seq<Emitted>,
    ghost form: { ∥ IsBundled inner names ∥₁ },
}

impl Model for BundledFile {
    ghost use Rattle.std.specs.Prelude.{List};
    ghost use Rattle.std.specs.Coded.{codes};
    ghost use Rattle.krml_syntax.specs.declared.tree.SourceFile.{SourceFile as Tree};
    ghost use Rattle.krml_syntax.specs.contracts.tree.Ty as ty;
    ghost use Rattle.krml_syntax.specs.contracts.tree.Expr as expr;
    ghost use Rattle.krml_ast.specs.declared.file.Emitted.{Emitted};

    ghost Value = { Tree × List Emitted };

    ghost coded = { Prim.hlevel (codes, ty.the_row.coded, expr.the_row.coded) };

    ghost view = { λ s. (s.inner, s.names) };
}

impl BundledFile {
    /// The file with the emitted name of each entry, in the order of the file, as one of this form.
    pub fn of(file: SourceFile, names: Seq<Emitted>) -> BundledFile
        requires { ∥ IsBundled file names ∥₁ }
        ensures { result ≡ (file, names) }
    {
        BundledFile { inner: file, names }
    }

    /// The file.
    pub fn file(&self) -> &SourceFile
        ensures value { result.now ≡ self.now.0 }
        ensures form { ∥ IsBundled self.now.0 self.now.1 ∥₁ }
    {
        &self.inner
    }

    /// The file, taken out.
    pub fn into_file(self) -> SourceFile
        ensures value { result ≡ self.0 }
        ensures form { ∥ IsBundled self.0 self.1 ∥₁ }
    {
        let BundledFile { inner, .. } = self;
        inner
    }

    /// The emitted name of an entry. `None` where the file has no entry of that name.
    pub fn name_of(&self, entry: &Name) -> Option<&Name>
        ensures { option_map (λ name. name.now) result ≡ emitted_name self.now.1 entry.now }
    {
        for pair in self.names.as_slice() {
            if pair.entry.as_bytes() == entry.as_bytes() {
                return Some(&pair.name);
            }
        }
        None
    }
}
