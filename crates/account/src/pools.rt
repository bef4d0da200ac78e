//! Positions joined in one class, and what they come to as one piece.
ghost use Rattle.std.specs.Prelude.{◌≡◌, ◌≤◌, length, IfOk, OnOk, unsigned_abs};
ghost use Rattle.terms.specs.declared.words.Basis.TheVariants.{Gross};
ghost use Rattle.sheet.specs.Plain.{plain};
ghost use Rattle.charge.specs.Positions.{joined};
ghost use Rattle.charge.specs.Replies.{allowance_answer};
ghost use Rattle.account.specs.Pieces.{pieces, Small};
ghost use Rattle.account.specs.Pools.{joined_from, joins, pool_of};

use crate::pieces::bounded;
use crate::positions::position_figure;
use charge::charges::Charge;
use charge::positions::Position;
use sheet::classes::Class;
use sheet::limits::MOST_SERIES;
use terms::faults::Fault;
use terms::words::Basis;

/// The figure of a class's pieces as one piece, and the allowances of their joins.
#[derive(Clone, Copy)]
pub struct ClassPool {
    pub figure: i64,
    pub allowance: i64,
}

/// Adds the counts of a piece, series by series.
fn add(pooled: &mut [i64], piece: &[i64])
    requires each { length pooled.old ≡ length piece.now }
    requires small { Small pooled.old }
    requires piece { Small piece.now }
    ensures after { pooled.new ≡ joined pooled.old piece.now }
{
    for (i, count) in pooled.iter_mut().enumerate() {
        *count += piece[i];
    }
}

/// Joins one piece: its allowance first, of what is joined so far and the piece.
fn join_piece<C: Charge>(
    charge: &C,
    class: &Class,
    piece: &[i64],
    pooled: &mut [i64],
) -> Result<i64, Fault>
    ensures answer { result ≡ allowance_answer (C.Charge.meaning charge.now) (plain class.now) pooled.old piece.now }
    ensures after { OnOk result (pooled.new ≡ joined pooled.old piece.now) }
{
    let allowance = charge.allowance(class, pooled, piece)?;
    add(pooled, piece);
    Ok(allowance)
}

/// Joins a gross account's pieces, series by series.
fn join_gross<C: Charge>(charge: &C, position: &Position, pooled: &mut [i64]) -> Result<i64, Fault>
    ensures bound { IfOk result (λ z. unsigned_abs z ≤ 12800000000000) }
    ensures answer { result ≡ joins (C.Charge.meaning charge.now) (plain position.now.class.now) pooled.old (pieces Gross position.now.counts.now) }
    ensures after { OnOk result (pooled.new ≡ joined_from pooled.old (pieces Gross position.now.counts.now)) }
{
    let mut piece = [0; MOST_SERIES]; // cut to the series of the class: no heap is taken
    let piece = &mut piece[..position.counts.len()];
    let mut total = 0;
    for (i, &count) in position.counts.iter().enumerate() {
        piece[i] = count;
        total += join_piece(charge, position.class, piece, pooled)?;
        piece[i] = 0;
    }
    Ok(total)
}

/// Joins an account's pieces to what is joined so far, and answers the allowances of the joins.
pub fn join<C: Charge>(
    charge: &C,
    position: &Position,
    basis: Basis,
    pooled: &mut [i64],
) -> Result<i64, Fault>
    ensures bound { IfOk result (λ z. unsigned_abs z ≤ 12800000000000) }
    ensures answer { result ≡ joins (C.Charge.meaning charge.now) (plain position.now.class.now) pooled.old (pieces basis position.now.counts.now) }
    ensures after { OnOk result (pooled.new ≡ joined_from pooled.old (pieces basis position.now.counts.now)) }
{
    match basis {
        Basis::Net => join_piece(charge, position.class, position.counts, pooled),
        Basis::Gross => join_gross(charge, position, pooled),
    }
}

/// What the joined position comes to, with the allowances of its joins.
pub fn class_pool<C: Charge>(
    charge: &C,
    pooled: &Position,
    allowances: i64,
) -> Result<ClassPool, Fault>
    ensures answer { result ≡ pool_of (C.Charge.meaning charge.now) (plain pooled.now.class.now) pooled.now.counts.now allowances }
{
    let allowance = bounded(allowances)?;
    let figure = position_figure(charge, pooled, Basis::Net)?;
    Ok(ClassPool { figure, allowance })
}
