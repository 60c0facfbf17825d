//! Tests through the public calls of several crates. They stand in a crate of their own, since a crate that has tests is
//! proved once more with them.
#![tactic(auto)]

#[cfg(test)]
mod commands;
#[cfg(test)]
mod copies;
#[cfg(test)]
mod ends;
#[cfg(test)]
mod forms;
#[cfg(test)]
mod labels;
#[cfg(test)]
mod limits;
#[cfg(test)]
mod reading;
#[cfg(test)]
mod typing;
