//! What is known of a definition that was found by its name.

use krml_syntax::{Con, Field, Ty};
use krml_trace::Name;

/// A struct: its type variables and its fields.
#[derive(Clone, Copy)]
pub struct StructDef<'a> {
    pub vars: &'a [Name],
    pub fields: &'a [Field],
}

/// A sum: its type variables and its constructors.
#[derive(Clone, Copy)]
pub struct SumDef<'a> {
    pub vars: &'a [Name],
    pub cons: &'a [Con],
}

/// A constructor: its sum, the type variables of that, and the types of its arguments.
#[derive(Clone, Copy)]
pub struct ConDef<'a> {
    pub sum: &'a Name,
    pub vars: &'a [Name],
    pub args: &'a [Ty],
}

/// What a call needs of a function.
#[derive(Clone, Copy)]
pub struct FunDef<'a> {
    pub vars: &'a [Name],
    pub params: &'a [Field],
    pub result: &'a Ty,
}
