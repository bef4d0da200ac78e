//! The market sheet: rates, classes and series, written as a draft and then sealed.
#![tactic(auto)]

pub mod calls;
pub mod classes;
pub mod drafts;
pub mod limits;
pub mod ranges;
pub mod rates;
pub mod rows;
pub mod sheets;
pub mod views;
