//! The collateral of both sides, a record for each currency.
ghost use Rattle.std.specs.Prelude.{All};
ghost use Rattle.collateral.specs.Records.{WithinCeiling};

use crate::records::Collateral;
use sheet::rates::Rates;

/// The client side's records come first, each side's in currency order; with the sheet's rates, which say what currencies are on it.
#[derive(Drop)]
pub struct Ledger {
    pub(crate) rates: Rates,
    pub(crate) records: [[Collateral; 5]; 2],
    ghost ceiling: { All (All WithinCeiling) records },
}
