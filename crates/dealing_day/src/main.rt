//! A day on a book: every call with its refusals, an order tried, contracts that are neither made nor lost, and what the accounts come to when they are joined.
#![tactic(auto)]

mod calls;
mod contracts;
mod days;
mod leaning;
mod orders;
mod pools;
mod series;

use crate::days::show_day;
use crate::leaning::show_leaning;
use std::io;

fn main(rt: HostRuntime) -> io::Result<()> {
    show_day(&rt)?;
    show_leaning(&rt)
}
