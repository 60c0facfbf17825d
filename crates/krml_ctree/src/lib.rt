//! The subset of C that krml writes: its trees, their one text, and what they mean.
#![tactic(auto)]

mod event;
mod laws;
mod run;
mod tree;
mod value;

pub use event::{CEvent, CSlot};
pub use laws::{one_program, one_spelled, spelled_alone, text_spells};
pub use run::CRun;
pub use tree::{
    CArm, CArray, CBin, CExpr, CFun, CProgram, CStatement, CStruct, CTable, CType, CVar, CmpKind,
};
pub use value::CValue;
