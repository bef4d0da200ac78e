//! The words that every layer uses: currencies, sides, legs, codes, keys, names and faults.
#![tactic(auto)]

pub mod codes;
pub mod faults;
pub mod keys;
pub mod letters;
pub mod limits;
pub mod names;
pub mod words;
