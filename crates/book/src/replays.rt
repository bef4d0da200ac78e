//! Calls made one after the other: on a book, or on a new one, as in a replay.
ghost use Rattle.std.specs.Prelude.{◌≡◌, length, drop};
ghost use Rattle.account.specs.Outcomes.{filled};
ghost use Rattle.book.specs.Events.{Asked, Happens, Pool, Run};
ghost use Rattle.book.specs.Law.{Stands};
ghost use Rattle.book.specs.Replays.{event_of, events_of};
ghost use Rattle.book.specs.State.{empty};
ghost use Rattle.book.specs.View.{view};

use crate::books::Book;
use crate::pooling::PoolFigures;
use crate::rows::AccountRow;
use account::rule::AccountReport;
use charge::charges::Charge;
use sheet::sheets::Sheet;
use terms::faults::Fault;
use terms::keys::AskedKey;
use terms::words::{Basis, Leg, Side};

/// A pool that was not asked for.
const NO_FIGURES: PoolFigures = PoolFigures {
    value: 0,
    summed: 0,
    allowance: 0,
};

/// A call of a book: a dealing on it, or a question for an account's report or for a pool.
#[derive(Clone, Copy, PartialEq, Eq, Debug)]
pub enum Call<'c> {
    Open {
        name: &'c [u8],
        basis: Basis,
        side: Side,
    },
    Post {
        name: &'c [u8],
        key: AskedKey,
        leg: Leg,
        contracts: i64,
    },
    CloseOut {
        name: &'c [u8],
        key: AskedKey,
        contracts: i64,
    },
    Move {
        from: &'c [u8],
        to: &'c [u8],
        key: AskedKey,
        leg: Leg,
        contracts: i64,
    },
    Report {
        name: &'c [u8],
    },
    Pool {
        side: Option<Side>,
    },
}

/// What a call was answered. The report, or the pool, is the one that was asked for, where that was not refused; else it says nothing.
#[derive(Clone, Copy)]
pub struct Answer {
    pub outcome: Result<(), Fault>,
    pub report: AccountReport,
    pub pool: PoolFigures,
}

impl Book<'_, '_> {
    /// A pool in a place of the caller's, as a report is.
    fn pool_into<C: Charge>(
        &self,
        charge: &C,
        side: Option<Side>,
        figures: &mut PoolFigures,
    ) -> Result<(), Fault>
        ensures step { Happens (view self.now) (Asked (Pool (C.Charge.meaning charge.now) side (filled result figures.new))) (view self.now) }
    {
        *figures = self.pool(charge, side)?;
        Ok(())
    }

    /// Makes one call, a report by the charge; refused as the method of that name is.
    pub fn call<C: Charge>(&mut self, charge: &C, call: Call<'_>) -> Answer
        ensures happens { Happens (view self.old) (event_of (C.Charge.meaning charge.now) call.entry result) (view self.new) }
    {
        let mut report = AccountReport::default();
        let mut pool = NO_FIGURES;
        let outcome = match call {
            Call::Open { name, basis, side } => self.open(name, basis, side),
            Call::Post {
                name,
                key,
                leg,
                contracts,
            } => self.post(name, key, leg, contracts),
            Call::CloseOut {
                name,
                key,
                contracts,
            } => self.close_out(name, key, contracts),
            Call::Move {
                from,
                to,
                key,
                leg,
                contracts,
            } => self.move_contracts(from, to, key, leg, contracts),
            Call::Report { name } => self.report(charge, name, &mut report),
            Call::Pool { side } => self.pool_into(charge, side, &mut pool),
        };
        Answer {
            outcome,
            report,
            pool,
        }
    }

    /// Makes calls in their order, those after a refused one too, and writes what each was answered in the place beside it.
    /// Where there are fewer places than calls, the calls that have no place are not made.
    pub fn call_all<C: Charge>(&mut self, charge: &C, calls: &[Call<'_>], answers: &mut [Answer])
        ensures run { Run (view self.old) (events_of (C.Charge.meaning charge.now) calls.now answers.new) (view self.new) }
        ensures rest { drop (length calls.now) answers.new ≡ drop (length calls.now) answers.old }
    {
        for i in 0..calls.len().min(answers.len()) {
            answers[i] = self.call(charge, calls[i]);
        }
    }
}

/// A new book on which calls are made as by `call_all`.
pub fn replay<'s, 'a, C: Charge>(
    sheet: Sheet<'s>,
    rows: &'a mut [AccountRow],
    counts: &'a mut [u32],
    charge: &C,
    calls: &[Call<'_>],
    answers: &mut [Answer],
) -> Book<'s, 'a>
    ensures run { Run (empty sheet.entry.rates.by_number sheet.entry.classes.now sheet.entry.series.now (length rows.old) counts.old) (events_of (C.Charge.meaning charge.now) calls.now answers.new) (view result) }
    ensures law { Stands (events_of (C.Charge.meaning charge.now) calls.now answers.new) (view result) }
    ensures rest { drop (length calls.now) answers.new ≡ drop (length calls.now) answers.old }
{
    let mut book = Book::new(sheet, rows, counts);
    book.call_all(charge, calls, answers);
    book
}
