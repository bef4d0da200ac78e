//! A position of a class, and the limit of a figure.
ghost use Rattle.std.specs.Prelude.{◌≡◌, ◌&&◌, true, length, IfOk};
ghost use Rattle.std.specs.Result.{result_map_both};
ghost use Rattle.charge.specs.Positions.{fits};
ghost use Rattle.charge.specs.Answers.{answer, judged, limited, outside as outsideOf};

use sheet::classes::Class;
use terms::faults::Fault;
use terms::words::{Label, Layer, Refusal};

/// The greatest size of a count.
const COUNT_LIMIT: u64 = 3_200_000;

/// The greatest figure, in cents.
pub const FIGURE_LIMIT: u64 = 100_000_000_000;

/// A position that fits its class: a count for each series, and none beyond its limit.
#[derive(Clone, Copy)]
pub struct Position<'a> {
    pub class: &'a Class<'a>,
    pub counts: &'a [i64],
    ghost fits_class: { fits (length class.now.series.now) counts.now ≡ true },
}

/// The fault of a position outside its limits, with the label of the charge that refuses it.
pub fn outside(label: Label) -> Fault
    ensures value { result ≡ outsideOf label }
{
    Fault::new(Refusal::Limit, Layer::Charge).with_label(label)
}

/// Whether the counts are a position of the class.
pub fn fitting(class: &Class, counts: &[i64]) -> bool
    ensures value { result ≡ fits (length class.now.series.now) counts.now }
{
    counts.len() == class.series.len()
        && counts
            .iter()
            .all(|count| count.unsigned_abs() <= COUNT_LIMIT)
}

/// Whether both are positions of the class.
pub fn both_fitting(class: &Class, one: &[i64], other: &[i64]) -> bool
    ensures value { result ≡ (fits (length class.now.series.now) one.now && fits (length class.now.series.now) other.now) }
{
    fitting(class, one) && fitting(class, other)
}

impl<'a> Position<'a> {
    /// The counts as a position of the class; counts that are none are refused with the label of the charge.
    pub fn judged(
        class: &'a Class<'a>,
        counts: &'a [i64],
        label: Label,
    ) -> Result<Position<'a>, Fault>
        ensures answer { result_map_both (λ _. tt) (λ f. f) result ≡ judged (fits (length class.now.series.now) counts.now) label }
        ensures class { IfOk result (λ p. p.class.now ≡ class.now) }
        ensures counts { IfOk result (λ p. p.counts.now ≡ counts.now) }
    {
        if !fitting(class, counts) {
            return Err(outside(label));
        }
        Ok(Position { class, counts })
    }
}

/// The allowance of a charge that never costs more when two positions are joined.
#[tactic(auto, unfolding(crate::specs::Answers::limited))]
pub fn no_allowance(class: &Class, one: &[i64], other: &[i64], label: Label) -> Result<i64, Fault>
    ensures answer { result ≡ answer (fits (length class.now.series.now) one.now && fits (length class.now.series.now) other.now) 0 label label }
{
    Position::judged(class, one, label)?;
    Position::judged(class, other, label)?;
    Ok(0)
}

/// The figure, or the fault where it is too large.
#[tactic(auto, unfolding(crate::specs::Answers::limited))]
pub fn limited(figure: u64, label: Label) -> Result<i64, Fault>
    ensures answer { result ≡ limited figure label }
{
    if figure > FIGURE_LIMIT {
        return Err(Fault::new(Refusal::TooLarge, Layer::Charge).with_label(label));
    }
    Ok(figure as i64) // at most 10^11, so nothing is lost
}
