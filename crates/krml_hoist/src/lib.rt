//! Files whose frames list the slots of the `alloc` forms inside them, with fills in the places of these.
#![tactic(auto)]

mod definitions;
mod frames;
mod hoister;
mod pass;
mod refusal;

pub use pass::hoist;
pub use refusal::HoistRefusal;
