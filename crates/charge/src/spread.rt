//! The spread charge: what long and short months have in common, at the spread rate.
ghost use Rattle.std.specs.Prelude.{◌≡◌, ◌*◌, ◌≤◌, length, unsigned_abs};
ghost use Rattle.std.specs.Option.{unwrap_or};
ghost use Rattle.charge.specs.Spread.{month_delta, seen, long, short, lean, crossing};
ghost use Rattle.charge.specs.Meanings.{spreading};
ghost use Rattle.charge.specs.Lawful.{spreading_lawful};

use crate::charges::Charge;
use crate::positions::{Position, limited};
use sheet::classes::Class;
use sheet::rows::Series;
use terms::faults::Fault;
use terms::words::Label;

impl Position<'_> {
    /// The counts of one month's series times their deltas, added up.
    fn month_delta(&self, month: u32) -> i64
        ensures value { result ≡ month_delta month self.now.class.now.series.now self.now.counts.now }
        ensures bound { unsigned_abs result ≤ 40960000000 }
    {
        let mut sum = 0;
        for (count, series) in self.counts.iter().zip(self.class.series) {
            if series.key.month == month {
                sum += count * series.delta;
            }
        }
        sum
    }

    /// The month deltas above 0 and those below 0 without their signs, each added up.
    fn sides(&self) -> (u64, u64)
        ensures longs { result.0 ≡ long (length self.now.class.now.series.now) self.now.class.now.series.now self.now.counts.now }
        ensures shorts { result.1 ≡ short (length self.now.class.now.series.now) self.now.class.now.series.now self.now.counts.now }
        ensures bounds { (result.0 ≤ 5242880000000) × (result.1 ≤ 5242880000000) }
    {
        let mut longs = 0;
        let mut shorts = 0;
        for (i, series) in self.class.series.iter().enumerate() {
            let month = series.key.month;
            if !seen(&self.class.series[..i], month) {
                let delta = self.month_delta(month);
                if delta > 0 {
                    longs += delta.unsigned_abs();
                } else {
                    shorts += delta.unsigned_abs();
                }
            }
        }
        (longs, shorts)
    }

    /// The lean: the long total less the short total.
    #[tactic(auto, unfolding(crate::specs::Spread::lean))]
    fn lean(&self) -> i64
        ensures value { result ≡ lean self.now.class.now.series.now self.now.counts.now }
        ensures bound { unsigned_abs result ≤ 5242880000000 }
    {
        let (longs, shorts) = self.sides();
        longs as i64 - shorts as i64 // each is at most 5.3 * 10^12, so nothing is lost
    }
}

/// Whether one of the series is of the month.
fn seen(series: &[Series], month: u32) -> bool
    ensures value { result ≡ seen month series.now }
{
    series.iter().any(|series| series.key.month == month)
}

/// The smaller of two leans without sign if they have opposite signs, else 0.
fn crossing_of(one: i64, other: i64) -> u64
    ensures value { result ≡ crossing one other }
{
    if (one < 0) != (other < 0) {
        one.unsigned_abs().min(other.unsigned_abs())
    } else {
        0
    }
}

/// The figure times the spread rate: nothing where no rate is published.
fn at_rate(class: &Class, figure: u64) -> u64
    requires { figure ≤ 5242880000000 }
    ensures value { result ≡ figure * unwrap_or class.now.spread_rate 0 }
{
    // A match, by a rule of the project: what no published rate means stands beside what a rate means.
    match class.spread_rate {
        Some(rate) => figure * u64::from(rate),
        None => 0,
    }
}

#[derive(Clone, Copy)]
pub struct Spread;

impl Charge for Spread {
    ghost meaning = { λ _. spreading };

    ghost lawful = { λ s. spreading_lawful };

    fn amount(&self, class: &Class, counts: &[i64]) -> Result<i64, Fault> {
        let position = Position::judged(class, counts, Label::Spread)?;
        let (longs, shorts) = position.sides();
        limited(at_rate(class, longs.min(shorts)), Label::Spread)
    }

    fn allowance(&self, class: &Class, one: &[i64], other: &[i64]) -> Result<i64, Fault> {
        let one = Position::judged(class, one, Label::Spread)?;
        let other = Position::judged(class, other, Label::Spread)?;
        limited(
            at_rate(class, crossing_of(one.lean(), other.lean())),
            Label::Spread,
        )
    }
}
