//! How values of types lie in memory.
#![tactic(auto)]

mod frame;
mod known;
mod layout;
mod layout_map;
mod layouts;

pub use frame::frame_bytes;
pub use layout::TypeLayout;
pub use layouts::Layouts;
