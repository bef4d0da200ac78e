//! Orders tried: what an account would be required with contracts that are not posted.
use crate::calls::{Lot, show_outcome};
use crate::pools::show_requirement;
use crate::series::Listed;
use account::rule::AccountReport;
use book::books::Book;
use book::questions::ReportOf;
use charge::composites::prime;
use std::io;
use terms::faults::Fault;
use terms::words::Leg;

const HOUSE: &str = "HOUSE";

/// What the house tries.
const ORDER: Lot = Lot {
    series: Listed::Put,
    leg: Leg::Short,
    contracts: 10,
};

/// More than its shorts leave room for.
const TOO_MANY: Lot = Lot {
    series: Listed::Put,
    leg: Leg::Short,
    contracts: 99_955,
};

pub(crate) fn show_orders(rt: &HostRuntime, book: &mut Book) -> io::Result<()> {
    show_requirement(rt, book, HOUSE)?;
    show_report_with(rt, book, ORDER)?;
    show_requirement(rt, book, HOUSE)?;
    show_report_with(rt, book, TOO_MANY)?;
    show_trial(rt, book, ORDER, HOUSE)?;
    show_trial(rt, book, ORDER, "NOBODY")?;
    show_requirement(rt, book, HOUSE)
}

/// The house's requirement as it would be with contracts posted to it.
fn show_report_with(rt: &HostRuntime, book: &mut Book, lot: Lot) -> io::Result<()> {
    let mut report = AccountReport::default();
    let answer = book.report_with(
        &prime(),
        HOUSE.as_bytes(),
        lot.series.key(),
        lot.leg,
        lot.contracts,
        &mut report,
    );
    print!(rt; "report of {HOUSE} with ")?;
    lot.show(rt)?;
    show_answer(rt, answer, &report)
}

/// A report asked for in the trial of a posting to the house.
fn show_trial(rt: &HostRuntime, book: &mut Book, lot: Lot, asked: &str) -> io::Result<()> {
    let mut asking = ReportOf {
        charge: &prime(),
        name: asked.as_bytes(),
        report: AccountReport::default(),
    };
    let answer = book.trial(
        HOUSE.as_bytes(),
        lot.series.key(),
        lot.leg,
        lot.contracts,
        &mut asking,
    );
    print!(rt; "report of {asked} in a trial of {HOUSE} with ")?;
    lot.show(rt)?;
    show_answer(rt, answer, &asking.report)
}

/// The requirement, or the refusal.
fn show_answer(
    rt: &HostRuntime,
    answer: Result<(), Fault>,
    report: &AccountReport,
) -> io::Result<()> {
    if answer.is_err() {
        return show_outcome(rt, answer);
    }
    let requirement = report.requirement;
    println!(rt; "requirement {requirement}")
}
