//! Dealing on accounts: a book over a sealed sheet.
#![tactic(auto)]

pub mod books;
pub mod calls;
pub mod counts;
mod dealings;
pub mod limits;
pub mod pooling;
pub mod questions;
pub mod reads;
pub mod replays;
pub mod reports;
pub mod rows;
mod spots;
pub mod trials;
