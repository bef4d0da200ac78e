//! The calls of a day, each printed in plain words with its outcome.
use crate::contracts::{Contracts, leg_words};
use crate::series::Listed;
use book::books::Book;
use std::io;
use terms::faults::Fault;
use terms::words::{Basis, Leg, Side};

/// Contracts of one series and leg.
#[derive(Clone, Copy)]
pub struct Lot {
    pub series: Listed,
    pub leg: Leg,
    pub contracts: i64,
}

/// One call.
#[derive(Clone, Copy)]
pub enum Call<'c> {
    Open(&'c str, Basis, Side),
    Post(&'c str, Lot),
    CloseOut(&'c str, Listed, i64),
    Move(&'c str, &'c str, Lot),
}

impl Call<'_> {
    /// Makes the call, counts what it posted or closed out, and prints it with its outcome.
    pub(crate) fn make(
        self,
        rt: &HostRuntime,
        book: &mut Book,
        contracts: &mut Contracts,
    ) -> io::Result<()> {
        self.show_words(rt)?;
        let answer = self.answer(book);
        if answer.is_ok() {
            self.count(contracts);
        }
        show_outcome(rt, answer)
    }

    fn answer(self, book: &mut Book) -> Result<(), Fault> {
        match self {
            Call::Open(name, basis, side) => book.open(name.as_bytes(), basis, side),
            Call::Post(name, lot) => {
                book.post(name.as_bytes(), lot.series.key(), lot.leg, lot.contracts)
            }
            Call::CloseOut(name, series, contracts) => {
                book.close_out(name.as_bytes(), series.key(), contracts)
            }
            Call::Move(from, to, lot) => book.move_contracts(
                from.as_bytes(),
                to.as_bytes(),
                lot.series.key(),
                lot.leg,
                lot.contracts,
            ),
        }
    }

    /// A move neither posts nor closes out.
    fn count(self, contracts: &mut Contracts) {
        match self {
            Call::Post(_, lot) => contracts.post(lot.series, lot.leg, lot.contracts),
            Call::CloseOut(_, series, closed) => contracts.close_out(series, closed),
            Call::Open(..) | Call::Move(..) => {}
        }
    }

    fn show_words(self, rt: &HostRuntime) -> io::Result<()> {
        match self {
            Call::Open(name, basis, side) => {
                let basis = basis_words(basis);
                let side = side_words(side);
                print!(rt; "open {name}, {basis}, {side}: ")
            }
            Call::Post(name, lot) => {
                print!(rt; "post to {name} ")?;
                lot.show(rt)
            }
            Call::CloseOut(name, series, contracts) => {
                let series = series.words();
                print!(rt; "close out of {name} {contracts} {series}: ")
            }
            Call::Move(from, to, lot) => {
                print!(rt; "move from {from} to {to} ")?;
                lot.show(rt)
            }
        }
    }
}

impl Lot {
    pub(crate) fn show(self, rt: &HostRuntime) -> io::Result<()> {
        let Lot {
            series,
            leg,
            contracts,
        } = self;
        let series = series.words();
        let leg = leg_words(leg);
        print!(rt; "{contracts} {series} {leg}: ")
    }
}

/// Prints whether a call was accepted, or the number of its refusal.
pub(crate) fn show_outcome(rt: &HostRuntime, answer: Result<(), Fault>) -> io::Result<()> {
    match answer {
        Ok(()) => println!(rt; "accepted"),
        Err(fault) => {
            let number = fault.refusal.number();
            println!(rt; "refused {number}")
        }
    }
}

fn basis_words(basis: Basis) -> &'static str {
    match basis {
        Basis::Gross => "gross",
        Basis::Net => "net",
    }
}

pub(crate) fn side_words(side: Side) -> &'static str {
    match side {
        Side::Client => "client",
        Side::House => "house",
    }
}
