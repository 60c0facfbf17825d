//! The source language: its trees, their types, and the forms of files between the passes.
#![tactic(auto)]

mod component;
mod components;
mod event;
mod fields;
mod file;
mod first_places;
mod found;
mod instance;
mod kind;
mod labels;
mod names;
mod places;
mod run;
mod types;
mod vars;

pub use component::Component;
pub use components::Components;
pub use event::SourceEvent;
pub use fields::field_named;
pub use file::{BundledFile, CheckedFile, Emitted, HoistedFile, MonoFile, PlainFile};
pub use found::{ConDef, FunDef, StructDef, SumDef};
pub use instance::{at_quote, source_name};
pub use kind::NameKind;
pub use krml_rename::{ast_clone, clone_ty};
pub use krml_syntax::{
    Arm, BinOp, Case, CmpOp, Con, Def, Expr, Field, IntTy, Item, LimitKind, Pat, Slot, SourceFile,
    Ty,
};
pub use labels::type_of;
pub use names::Names;
pub use run::SourceRun;
pub use types::{name_of, type_at};
pub use vars::Vars;
