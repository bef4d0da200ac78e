//! What an account is required, and what the accounts come to when they are joined, with the bound of it.
use crate::calls::side_words;
use crate::contracts::yes_or_no;
use account::rule::AccountReport;
use book::books::Book;
use book::pooling::PoolFigures;
use charge::composites::prime;
use std::io;
use terms::words::Side;

/// The requirement of an account by PRiME's charge.
pub(crate) fn show_requirement(rt: &HostRuntime, book: &Book, name: &str) -> io::Result<()> {
    let mut report = AccountReport::default();
    match book.report(&prime(), name.as_bytes(), &mut report) {
        Ok(()) => {
            let requirement = report.requirement;
            println!(rt; "report of {name}: requirement {requirement}")
        }
        Err(fault) => {
            let number = fault.refusal.number();
            println!(rt; "report of {name}: refused {number}")
        }
    }
}

/// The pools of the client side, of the house side and of both.
pub(crate) fn show_pools(rt: &HostRuntime, book: &Book) -> io::Result<()> {
    show_pool(rt, book, Some(Side::Client))?;
    show_pool(rt, book, Some(Side::House))?;
    show_pool(rt, book, None)
}

/// One pool by PRiME's charge, and its bound.
pub(crate) fn show_pool(rt: &HostRuntime, book: &Book, side: Option<Side>) -> io::Result<()> {
    let words = match side {
        Some(side) => side_words(side),
        None => "both sides",
    };
    match book.pool(&prime(), side) {
        Ok(figures) => show_bound(rt, words, figures),
        Err(fault) => {
            let number = fault.refusal.number();
            println!(rt; "pool, {words}: refused {number}")
        }
    }
}

/// What is required account by account is at least the pooled value less the allowance.
fn show_bound(rt: &HostRuntime, words: &str, figures: PoolFigures) -> io::Result<()> {
    let PoolFigures {
        value,
        summed,
        allowance,
    } = figures;
    let least = i128::from(value) - i128::from(allowance);
    let verdict = yes_or_no(i128::from(summed) >= least);
    println!(rt; "pool, {words}: pooled {value}, summed {summed}, allowance {allowance}")?;
    println!(rt; "pool, {words}: summed {summed} >= pooled less allowance {least}: {verdict}")
}
