//! What the accounts of one side, or of both, come to when their positions are joined.
ghost use Rattle.std.specs.Prelude.{◌≡◌, ◌*◌, ◌<◌, ◌≤◌, pos, ◌*ℤ◌, length, map, filter, Ok, IfOk, IfSome, OnOk, option_to_list, slice_index, unsigned_abs};
ghost use Rattle.terms.specs.Words.{currency_number};
ghost use Rattle.sheet.specs.Given.{class_at, given};
ghost use Rattle.account.specs.Outcomes.{and_then, filled};
ghost use Rattle.account.specs.Pieces.{pieces};
ghost use Rattle.account.specs.Pools.{class_pool, joined_from, joins};
ghost use Rattle.account.specs.Sums.{currencies, sum_of, value_of};
ghost use Rattle.book.specs.Events.{Asked, Happens, Pool};
ghost use Rattle.book.specs.Pool.{all_of, allowances, counts_in, pieces_in, Counted, Limited, pool, pool_in, pool_sum, pooled, pools, summed};
ghost use Rattle.book.specs.Reads.{numbered};
ghost use Rattle.book.specs.Reports.{row_report};
ghost use Rattle.book.specs.View.{view};

use crate::books::Book;
use crate::rows::AccountRow;
use account::offset::CurrencySums;
use account::pieces::{bounded, margin_counts};
use account::pools::{ClassPool, class_pool, join};
use account::rule::{AccountReport, margin_account};
use charge::charges::Charge;
use charge::positions::Position;
use sheet::limits::{MOST_CLASSES, MOST_SERIES};
use terms::faults::Fault;
use terms::words::{Currency, Leg, Side};

/// The pooled value, the summed requirement value, and the pooling allowance.
#[derive(Clone, Copy)]
pub struct PoolFigures {
    pub value: i64,
    pub summed: u64,
    pub allowance: i64,
}

/// Whether a pool of one side, or of both where none is named, takes an account.
fn takes(side: Option<Side>, row: &AccountRow) -> bool
    ensures value { result ≡ pools side row.now }
{
    match side {
        None => true,
        Some(side) => row.side.number() == side.number(),
    }
}

/// Allowance × rate.
fn allowance_line(allowance: i64, rate: u32) -> i64
    requires allowance { unsigned_abs allowance ≤ 100000000000 }
    requires rate { rate ≤ 200000 }
    ensures value { result ≡ allowance *ℤ pos rate }
    ensures bound { unsigned_abs result ≤ 20000000000000000 }
{
    allowance * i64::from(rate)
}

impl Book<'_, '_> {
    /// The account that was opened as the k-th, if the pool takes it.
    fn taken(&self, side: Option<Side>, k: usize) -> Option<AccountRow>
        ensures value { option_to_list result ≡ filter (pools side) (option_to_list (numbered k (view self.now).accounts)) }
        ensures open { IfSome result (λ row. row.slot < length (view self.now).accounts) }
    {
        let row = self.account(k)?;
        if takes(side, &row) { Some(row) } else { None }
    }

    /// The requirement value of a row's account.
    fn requirement<C: Charge>(&self, charge: &C, row: AccountRow) -> Result<u64, Fault>
        requires { row.slot < length (view self.now).accounts }
        ensures bound { IfOk result (λ n. n ≤ 100000000000000000) }
        ensures answer { result ≡ and_then (row_report (C.Charge.meaning charge.now) (view self.now) row) (λ r. Ok r.requirement) }
    {
        let mut report = AccountReport::default();
        margin_account(charge, &self.account_of(row), &mut report)?;
        Ok(report.requirement)
    }

    /// The requirement values of the accounts, added up.
    fn summed<C: Charge>(&self, charge: &C, side: Option<Side>) -> Result<u64, Fault>
        ensures answer { result ≡ and_then (all_of (row_report (C.Charge.meaning charge.now) (view self.now)) (pooled (view self.now) side)) (λ reports. Ok (summed reports)) }
    {
        let mut total = 0;
        for k in 0..self.account_count() {
            if let Some(row) = self.taken(side, k) {
                total += self.requirement(charge, row)?;
            }
        }
        Ok(total)
    }

    /// Joins an account's pieces in the class at a place to what is joined so far.
    fn join_account<C: Charge>(
        &self,
        charge: &C,
        i: usize,
        row: AccountRow,
        position: &mut [i64],
    ) -> Result<i64, Fault>
        requires place { i < length (view self.now).classes }
        requires open { row.slot < length (view self.now).accounts }
        ensures bound { IfOk result (λ z. unsigned_abs z ≤ 12800000000000) }
        ensures answer { result ≡ joins (C.Charge.meaning charge.now) (given (class_at (view self.now).classes i) (view self.now).series) position.old (pieces row.basis (counts_in (view self.now) (class_at (view self.now).classes i) row)) }
        ensures after { OnOk result (position.new ≡ joined_from position.old (pieces row.basis (counts_in (view self.now) (class_at (view self.now).classes i) row))) }
        ensures counts { Counted (class_at (view self.now).classes i).code (view self.now).series (counts_in (view self.now) (class_at (view self.now).classes i) row) }
    {
        let mut counts = [0; MOST_SERIES]; // cut to the series of the sheet: no heap is taken
        let counts = &mut counts[..self.sheet.series_count()];
        let longs = self.counts(row.slot, Leg::Long);
        let shorts = self.counts(row.slot, Leg::Short);
        margin_counts(row.basis, longs, shorts, counts);
        let class = self.sheet.class(i);
        let span = self.sheet.span(i);
        let own = Position {
            class: &class,
            counts: &counts[span.from..span.to],
        };
        join(charge, &own, row.basis, position)
    }

    /// Joins the pieces of the accounts in the class at a place, and what they come to as one.
    fn joined_in<C: Charge>(
        &self,
        charge: &C,
        side: Option<Side>,
        i: usize,
    ) -> Result<ClassPool, Fault>
        requires { i < length (view self.now).classes }
        ensures answer { result ≡ class_pool (C.Charge.meaning charge.now) (given (class_at (view self.now).classes i) (view self.now).series) (pieces_in (view self.now) (class_at (view self.now).classes i) (pooled (view self.now) side)) }
    {
        let class = self.sheet.class(i);
        let mut position = [0; MOST_SERIES]; // cut to the series of the class
        let position = &mut position[..class.series.len()];
        let mut allowances = 0;
        for k in 0..self.account_count() {
            if let Some(row) = self.taken(side, k) {
                allowances += self.join_account(charge, i, row, position)?;
            }
        }
        let joined = Position {
            class: &class,
            counts: position,
        };
        class_pool(charge, &joined, allowances)
    }

    /// The pool of the class at a place; a fault names the class.
    fn pool_in<C: Charge>(
        &self,
        charge: &C,
        side: Option<Side>,
        i: usize,
    ) -> Result<ClassPool, Fault>
        requires { i < length (view self.now).classes }
        ensures answer { result ≡ pool_in (C.Charge.meaning charge.now) (view self.now) (pooled (view self.now) side) (class_at (view self.now).classes i) }
    {
        let code = self.sheet.class_row(i).code;
        self.joined_in(charge, side, i)
            .map_err(|fault| fault.with_class(code))
    }

    /// Fills the pools of the classes, class by class, up to the first refusal.
    fn class_pools<C: Charge>(
        &self,
        charge: &C,
        side: Option<Side>,
        per_class: &mut [ClassPool],
    ) -> Result<(), Fault>
        requires { length per_class.old ≡ length (view self.now).classes }
        ensures answer { filled result per_class.new ≡ all_of (pool_in (C.Charge.meaning charge.now) (view self.now) (pooled (view self.now) side)) (view self.now).classes }
        ensures limited { OnOk result (Limited per_class.new) }
    {
        for (i, place) in per_class.iter_mut().enumerate() {
            *place = self.pool_in(charge, side, i)?;
        }
        Ok(())
    }

    /// The figures of one currency's classes, added up.
    fn sum_in(&self, per_class: &[ClassPool], wanted: Currency) -> i64
        requires each { length per_class.now ≡ length (view self.now).classes }
        requires limited { Limited per_class.now }
        ensures value { result ≡ sum_of wanted (view self.now).classes (map (λ p. p.figure) per_class.now) }
    {
        let mut sum = 0;
        for (i, pool) in per_class.iter().enumerate() {
            if self.sheet.class_row(i).currency.number() == wanted.number() {
                sum += pool.figure;
            }
        }
        sum
    }

    /// The sum of one currency, refused if it is too large; no account is named.
    fn currency_sum(&self, per_class: &[ClassPool], wanted: Currency) -> Result<i64, Fault>
        requires each { length per_class.now ≡ length (view self.now).classes }
        requires limited { Limited per_class.now }
        ensures answer { result ≡ pool_sum (view self.now).classes (map (λ p. p.figure) per_class.now) wanted }
    {
        bounded(self.sum_in(per_class, wanted)).map_err(|fault| fault.with_currency(wanted))
    }

    /// The value of the figures: the sums of the currencies, each × its rate.
    fn pooled_value(&self, per_class: &[ClassPool]) -> Result<i64, Fault>
        requires each { length per_class.now ≡ length (view self.now).classes }
        requires limited { Limited per_class.now }
        ensures answer { result ≡ and_then (all_of (pool_sum (view self.now).classes (map (λ p. p.figure) per_class.now)) currencies) (λ sums. Ok (value_of sums (view self.now).rates)) }
    {
        let mut sums = [0; 5];
        for currency in Currency::ALL {
            sums[currency.number()] = self.currency_sum(per_class, currency)?;
        }
        let rates = self.sheet.rates().factors();
        Ok(CurrencySums { sums, rates }.value())
    }

    /// The allowance of each class × the rate of its currency, added up.
    fn pooled_allowance(&self, per_class: &[ClassPool]) -> i64
        requires each { length per_class.now ≡ length (view self.now).classes }
        requires limited { Limited per_class.now }
        ensures value { result ≡ allowances (view self.now).rates (view self.now).classes per_class.now }
    {
        let rates = self.sheet.rates().factors();
        let mut total = 0;
        for (i, pool) in per_class.iter().enumerate() {
            let rate = rates[self.sheet.class_row(i).currency.number()];
            total += allowance_line(pool.allowance, rate);
        }
        total
    }

    /// The pool of the accounts of one side, or of both: what their joined positions come to, beside the accounts' requirement values.
    pub fn pool<C: Charge>(&self, charge: &C, side: Option<Side>) -> Result<PoolFigures, Fault>
        ensures answer { result ≡ pool (C.Charge.meaning charge.now) (view self.now) side }
        ensures step { Happens (view self.now) (Asked (Pool (C.Charge.meaning charge.now) side result)) (view self.now) }
    {
        let summed = self.summed(charge, side)?;
        let mut per_class = [ClassPool {
            figure: 0,
            allowance: 0,
        }; MOST_CLASSES]; // cut to the classes of the sheet
        let per_class = &mut per_class[..self.sheet.class_count()];
        self.class_pools(charge, side, per_class)?;
        let value = self.pooled_value(per_class)?;
        let allowance = self.pooled_allowance(per_class);
        Ok(PoolFigures {
            value,
            summed,
            allowance,
        })
    }
}
