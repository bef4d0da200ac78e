//! What was posted and closed out of each series and leg, beside what all accounts hold.
use crate::series::Listed;
use book::books::Book;
use std::io;
use terms::words::Leg;

/// Contracts by series and leg, added up as the calls are accepted.
#[derive(Clone, Copy)]
pub struct Contracts {
    posted: [[u64; 2]; 3],
    closed: [[u64; 2]; 3],
}

/// Adds contracts to the sum of a series and leg.
fn add(sums: &mut [[u64; 2]; 3], series: Listed, leg: Leg, contracts: i64) {
    let sum = &mut sums[series.number()][leg.number()];
    *sum = sum.saturating_add(contracts.unsigned_abs());
}

impl Contracts {
    pub(crate) fn none() -> Contracts {
        Contracts {
            posted: [[0; 2]; 3],
            closed: [[0; 2]; 3],
        }
    }

    /// A posting that was accepted.
    pub(crate) fn post(&mut self, series: Listed, leg: Leg, contracts: i64) {
        add(&mut self.posted, series, leg, contracts);
    }

    /// A close out that was accepted: as many longs as shorts.
    pub(crate) fn close_out(&mut self, series: Listed, contracts: i64) {
        add(&mut self.closed, series, Leg::Long, contracts);
        add(&mut self.closed, series, Leg::Short, contracts);
    }

    /// Each series and leg: held + closed = posted.
    pub(crate) fn show(&self, rt: &HostRuntime, book: &Book) -> io::Result<()> {
        for series in Listed::ALL {
            self.show_leg(rt, book, series, Leg::Long)?;
            self.show_leg(rt, book, series, Leg::Short)?;
        }
        Ok(())
    }

    fn show_leg(&self, rt: &HostRuntime, book: &Book, series: Listed, leg: Leg) -> io::Result<()> {
        let words = series.words();
        let side = leg_words(leg);
        let posted = self.posted[series.number()][leg.number()];
        let closed = self.closed[series.number()][leg.number()];
        let held = held(book, series, leg);
        let verdict = yes_or_no(held.saturating_add(closed) == posted);
        println!(rt;
            "{words}, {side}: posted {posted}, closed out {closed}, held {held}; held + closed out = posted: {verdict}"
        )
    }
}

/// What all accounts hold of a series and leg.
fn held(book: &Book, series: Listed, leg: Leg) -> u64 {
    let mut total = 0u64;
    for k in 0..book.account_count() {
        total = total.saturating_add(held_by(book, k, series, leg));
    }
    total
}

/// What the account that was opened as the k-th holds of it.
fn held_by(book: &Book, k: usize, series: Listed, leg: Leg) -> u64 {
    let Some(row) = book.account(k) else {
        return 0;
    };
    match book.counts(row.slot, leg).get(series.number()) {
        Some(count) => u64::from(*count),
        None => 0,
    }
}

pub(crate) fn leg_words(leg: Leg) -> &'static str {
    match leg {
        Leg::Long => "long",
        Leg::Short => "short",
    }
}

pub(crate) fn yes_or_no(holds: bool) -> &'static str {
    if holds { "yes" } else { "NO" }
}
