//! Takes each line to the sheet or the book, and margins the book at the close.
#![tactic(auto)]

pub mod book_desk;
pub mod due;
pub mod sheet_desk;
pub mod statements;
