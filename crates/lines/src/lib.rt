//! The lines of sheets, books and reports: each kind of line read exactly, its turn, and the lines of a report.
#![tactic(auto)]

mod columns;
mod names;
pub mod reader;
pub mod record;
pub mod report;
pub mod widths;
mod words;
