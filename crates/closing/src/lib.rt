//! The close: an input is read, its book margined, its report printed or its fault told.
#![tactic(auto)]

pub mod days;
pub mod ending;
pub mod memory;
pub mod printing;
