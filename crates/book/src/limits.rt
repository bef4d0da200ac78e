//! The limits of what a dealing names.
ghost use Rattle.std.specs.Prelude.{◌≡◌, is_some, is_ok, IfSome, IfOk};
ghost use Rattle.book.specs.Limits.{name_of, fits, same_account, IsNamed};

use crate::dealings::Dealing;
use terms::keys::{AskedKey, SeriesKey};
use terms::limits::{OutsideLimits, within};
use terms::names::Name;

/// How many contracts one use takes at most, and one count holds at most.
pub const CEILING: u32 = 100_000;

/// The dealing, if name, key and contracts are within their limits.
pub(crate) fn within_limits(
    name: &[u8],
    key: AskedKey,
    contracts: i64,
) -> Result<Dealing, OutsideLimits>
    ensures fits { is_ok result ≡ fits name.now key contracts }
    ensures named { IfOk result (IsNamed name.now key contracts) }
{
    let name = Name::try_from(name)?;
    let key = SeriesKey::try_from(key)?;
    let contracts = within(contracts, 1, CEILING)?;
    Ok(Dealing {
        name,
        key,
        contracts,
    })
}

/// The account that two texts both name, if they do.
pub(crate) fn named_twice(first: &[u8], second: &[u8]) -> Option<Name>
    ensures same { is_some result ≡ same_account first.now second.now }
    ensures named { IfSome result (λ x. x ≡ name_of first.now) }
{
    let a = Name::try_from(first).ok()?;
    let b = Name::try_from(second).ok()?;
    (a == b).then_some(a)
}
