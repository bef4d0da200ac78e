//! An account's counts in one class: their mark to market, and what a charge comes to for their pieces.
ghost use Rattle.std.specs.Prelude.{◌≡◌, ◌*◌, ◌≤◌, pos, ◌*ℤ◌, neg_ℤ, IfOk, unsigned_abs};
ghost use Rattle.terms.specs.declared.words.Basis.TheVariants.{Gross};
ghost use Rattle.sheet.specs.Plain.{plain};
ghost use Rattle.account.specs.Pieces.{pieces, mark};
ghost use Rattle.account.specs.Figures.{amounts, position_figure};

use crate::pieces::bounded;
use charge::charges::Charge;
use charge::positions::Position;
use sheet::limits::MOST_SERIES;
use terms::faults::Fault;
use terms::words::Basis;

/// Minus count × price × shares.
fn line_mark(count: i64, price: u32, shares: u32) -> i64
    requires count { unsigned_abs count ≤ 3200000 }
    requires worth { price * shares ≤ 10000000 }
    ensures value { result ≡ neg_ℤ (count *ℤ pos (price * shares)) }
    ensures bound { unsigned_abs result ≤ 32000000000000 }
{
    -(count * i64::from(price * shares))
}

/// The mark to market.
pub fn mark(position: &Position) -> i64
    ensures value { result ≡ mark (plain position.now.class.now).rows position.now.counts.now }
{
    position
        .class
        .series
        .iter()
        .zip(position.counts)
        .map(|(row, &count)| line_mark(count, row.price, row.shares))
        .sum()
}

/// The charges of a gross account's pieces, series by series.
fn gross_amounts<C: Charge>(charge: &C, position: &Position) -> Result<i64, Fault>
    ensures bound { IfOk result (λ z. unsigned_abs z ≤ 12800000000000) }
    ensures answer { result ≡ amounts (C.Charge.meaning charge.now) (plain position.now.class.now) (pieces Gross position.now.counts.now) }
{
    let mut piece = [0; MOST_SERIES]; // cut to the series of the class: no heap is taken
    let piece = &mut piece[..position.counts.len()];
    let mut total = 0;
    for (i, &count) in position.counts.iter().enumerate() {
        piece[i] = count;
        total += charge.amount(position.class, piece)?;
        piece[i] = 0;
    }
    Ok(total)
}

/// The charges of the pieces.
fn amounts<C: Charge>(charge: &C, position: &Position, basis: Basis) -> Result<i64, Fault>
    ensures bound { IfOk result (λ z. unsigned_abs z ≤ 12800000000000) }
    ensures answer { result ≡ amounts (C.Charge.meaning charge.now) (plain position.now.class.now) (pieces basis position.now.counts.now) }
{
    match basis {
        Basis::Net => charge.amount(position.class, position.counts),
        Basis::Gross => gross_amounts(charge, position),
    }
}

/// The figure: the mark, and then the charges.
pub(crate) fn position_figure<C: Charge>(
    charge: &C,
    position: &Position,
    basis: Basis,
) -> Result<i64, Fault>
    ensures bound { IfOk result (λ z. unsigned_abs z ≤ 12900000000000) }
    ensures answer { result ≡ position_figure (C.Charge.meaning charge.now) basis (plain position.now.class.now) position.now.counts.now }
{
    let mark = bounded(mark(position))?;
    Ok(mark + amounts(charge, position, basis)?)
}
