//! An account's margined counts, and the limit of its figures.
ghost use Rattle.std.specs.Prelude.{◌≡◌, length};
ghost use Rattle.account.specs.Outcomes.{beyond, bounded};
ghost use Rattle.account.specs.Pieces.{margined, margined_counts};

pub use charge::positions::FIGURE_LIMIT;
use terms::faults::Fault;
use terms::words::{Basis, Layer, Refusal};

/// Whether a figure is beyond the limit.
pub fn is_beyond(figure: i64) -> bool
    ensures answer { result ≡ beyond figure }
{
    figure.unsigned_abs() > FIGURE_LIMIT
}

/// The figure, refused if it is too large.
pub fn bounded(figure: i64) -> Result<i64, Fault>
    ensures answer { result ≡ bounded figure }
{
    if is_beyond(figure) {
        return Err(Fault::new(Refusal::TooLarge, Layer::Account));
    }
    Ok(figure)
}

fn margined_count(basis: Basis, long: u32, short: u32) -> i64
    ensures value { result ≡ margined basis long short }
{
    match basis {
        Basis::Net => i64::from(long) - i64::from(short),
        Basis::Gross => -i64::from(short),
    }
}

/// Fills a place with the margined counts of all series. For our own account rule: plain slices cannot carry that they are as long.
pub fn margin_counts(basis: Basis, longs: &[u32], shorts: &[u32], counts: &mut [i64])
    requires longs { length longs.now ≡ length counts.old }
    requires shorts { length shorts.now ≡ length counts.old }
    ensures after { counts.new ≡ margined_counts basis longs.now shorts.now }
{
    // Tried as a zip: nothing is known afterwards of what is written through `iter_mut` in one.
    for (i, count) in counts.iter_mut().enumerate() {
        *count = margined_count(basis, longs[i], shorts[i]);
    }
}
