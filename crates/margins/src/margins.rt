//! An account of a book margined by a charge, each figure beside the one that is wanted.
use account::rule::AccountReport;
use book::books::Book;
use charge::charges::Charge;
use example::verdicts::verdict;
use std::fmt::Display;
use std::io;
use terms::words::Currency;

/// What an account on a sheet of two classes should come to: class figures in the order of the codes, sums and owed in HKD and in RMB.
#[derive(Clone, Copy)]
pub struct Wanted {
    pub figures: [i64; 2],
    pub sums: [i64; 2],
    pub value: i64,
    pub owed: [u64; 2],
    pub requirement: u64,
}

/// Margins an account by its name and prints its figures.
pub(crate) fn show_margin<C: Charge>(
    rt: &HostRuntime,
    what: &str,
    charge: &C,
    book: &Book,
    name: &[u8],
    wanted: &Wanted,
) -> io::Result<()> {
    let mut report = AccountReport::default();
    match book.report(charge, name, &mut report) {
        Ok(()) => show_report(rt, what, &report, wanted),
        Err(fault) => {
            let number = fault.refusal.number();
            println!(rt; "{what}: refused {number}: DIFFERS")
        }
    }
}

/// Every figure of a report.
fn show_report(
    rt: &HostRuntime,
    what: &str,
    report: &AccountReport,
    wanted: &Wanted,
) -> io::Result<()> {
    let hkd = Currency::Hkd.number();
    let rmb = Currency::Rmb.number();
    let figures = [
        ("first class", report.class_figures[0], wanted.figures[0]),
        ("second class", report.class_figures[1], wanted.figures[1]),
        ("HKD sum", report.sums[hkd], wanted.sums[0]),
        ("RMB sum", report.sums[rmb], wanted.sums[1]),
        ("value", report.value, wanted.value),
    ];
    compare(rt, what, &figures)?;
    let owing = [
        ("HKD owed", report.owed[hkd], wanted.owed[0]),
        ("RMB owed", report.owed[rmb], wanted.owed[1]),
        ("requirement", report.requirement, wanted.requirement),
    ];
    compare(rt, what, &owing)
}

/// Each figure beside the one that is wanted.
fn compare<T: PartialEq + Display + Copy>(
    rt: &HostRuntime,
    what: &str,
    figures: &[(&str, T, T)],
) -> io::Result<()> {
    for (figure, got, wanted) in figures {
        let verdict = verdict(got, wanted);
        println!(rt; "{what}, {figure}: {got}, wanted {wanted}: {verdict}")?;
    }
    Ok(())
}
