//! The parts of PRiME's charge on the clearing house's example, and a charge that a broker brings in, each beside the figure that is published or worked out by hand.
#![tactic(auto)]

use charge::charges::Charge;
use charge::composites::{Greater, Sum, prime};
use charge::minimum::Minimum;
use charge::scanning::Scanning;
use charge::spread::Spread;
use closing::memory::{CLASS, SERIES};
use example::flat::FlatRate;
use example::market::list_home;
use example::verdicts::verdict;
use sheet::classes::Class;
use sheet::drafts::DraftSheet;
use std::io;
use terms::faults::Fault;

fn main(rt: HostRuntime) -> io::Result<()> {
    let mut classes = [CLASS; 1];
    let mut series = [SERIES; 2];
    let mut draft = DraftSheet::new(&mut classes, &mut series);
    if list_home(&mut draft).is_err() {
        return println!(rt; "the example's class is refused");
    }
    let sheet = draft.seal();
    if sheet.class_count() == 0 {
        return println!(rt; "the example's class is missing");
    }
    let class = sheet.class(0);
    show_offset(&rt, &class)?;
    show_house(&rt, &class)?;
    show_brought_in(&rt, &class)?;
    show_limits(&rt, &class)
}

/// Prints a charge's answer beside what it should be.
fn show(rt: &HostRuntime, what: &str, answer: Result<i64, Fault>, wanted: i64) -> io::Result<()> {
    match answer {
        Ok(cents) => {
            let verdict = verdict(&cents, &wanted);
            println!(rt; "{what}: {cents} cents, wanted {wanted}: {verdict}")
        }
        Err(fault) => {
            let number = fault.refusal.number();
            println!(rt; "{what}: refused {number}, wanted {wanted}: DIFFERS")
        }
    }
}

/// Prints each of some answers beside what it should be.
fn show_all(rt: &HostRuntime, rows: &[(&str, Result<i64, Fault>, i64)]) -> io::Result<()> {
    for (what, answer, wanted) in rows {
        show(rt, what, *answer, *wanted)?;
    }
    Ok(())
}

/// Prints a charge's refusal: its number, and the number of the charge's label.
fn show_refusal(rt: &HostRuntime, what: &str, answer: Result<i64, Fault>) -> io::Result<()> {
    match answer {
        Ok(cents) => println!(rt; "{what}: {cents} cents"),
        Err(fault) => {
            let number = fault.refusal.number();
            match fault.place.label {
                Some(label) => {
                    let charge = label.number();
                    println!(rt; "{what}: refused {number} by charge {charge}")
                }
                None => println!(rt; "{what}: refused {number}"),
            }
        }
    }
}

/// The client offset account: 30 calls and 30 puts short.
fn show_offset(rt: &HostRuntime, class: &Class) -> io::Result<()> {
    let offset = [-30i64, -30];
    let scanning = Scanning.amount(class, &offset);
    let spread = Spread.amount(class, &offset);
    let minimum = Minimum.amount(class, &offset);
    let prime = prime().amount(class, &offset);
    let rows = [
        ("client offset, scanning", scanning, 300_000),
        ("client offset, spread", spread, 1_215_000),
        ("client offset, minimum", minimum, 600_000),
        ("client offset, PRiME", prime, 1_515_000),
    ];
    show_all(rt, &rows)
}

/// The house account: 5 calls and 40 puts short. Its worst cases series by series would be 90,000.00.
fn show_house(rt: &HostRuntime, class: &Class) -> io::Result<()> {
    let house = [-5i64, -40];
    let scanning = Scanning.amount(class, &house);
    let spread = Spread.amount(class, &house);
    let minimum = Minimum.amount(class, &house);
    let prime = prime().amount(class, &house);
    let calls = Scanning.amount(class, &[-5, 0]);
    let puts = Scanning.amount(class, &[0, -40]);
    let rows = [
        ("house, scanning", scanning, 6_950_000),
        ("house, spread", spread, 202_500),
        ("house, minimum", minimum, 800_000),
        ("house, PRiME", prime, 7_152_500),
        ("house, the calls alone", calls, 1_000_000),
        ("house, the puts alone", puts, 8_000_000),
    ];
    show_all(rt, &rows)
}

/// A flat rate of a broker's, alone, in a sum of three parts and in a greater.
fn show_brought_in(rt: &HostRuntime, class: &Class) -> io::Result<()> {
    let position = [-5i64, 40];
    let flat = FlatRate { cents: 150 };
    let alone = flat.amount(class, &position);
    let allowance = flat.allowance(class, &position, &[5, -40]);
    let sum = Sum(Sum(Scanning, Spread), flat).amount(class, &[-30, -30]);
    let greater = Greater(Minimum, flat).amount(class, &[0, 40]);
    let rows = [
        ("flat rate", alone, 6_750),
        ("flat rate, allowance", allowance, 0),
        ("scanning plus spread plus flat rate", sum, 1_524_000),
        ("the greater of minimum and flat rate", greater, 6_000),
    ];
    show_all(rt, &rows)
}

/// Limits at both sides.
fn show_limits(rt: &HostRuntime, class: &Class) -> io::Result<()> {
    let most = FlatRate { cents: 31_250 }.amount(class, &[3_200_000, 0]);
    let more = FlatRate { cents: 31_251 }.amount(class, &[3_200_000, 0]);
    let long = Scanning.amount(class, &[3_200_001, 0]);
    let short = Minimum.amount(class, &[0, -3_200_001]);
    let three = prime().amount(class, &[0, 0, 0]);
    let one = Spread.allowance(class, &[0, 0], &[0]);
    show(
        rt,
        "a count of 3,200,000, a figure of 10^11",
        most,
        100_000_000_000,
    )?;
    let refusals = [
        ("a figure beyond 10^11", more),
        ("a count of 3,200,001", long),
        ("a count of -3,200,001", short),
        ("a position of three counts", three),
        ("a second position of one count", one),
    ];
    for (what, answer) in refusals {
        show_refusal(rt, what, answer)?;
    }
    Ok(())
}
