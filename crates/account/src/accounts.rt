//! An account as it is margined.
ghost use Rattle.std.specs.Prelude.{◌≡◌, length};
ghost use Rattle.account.specs.Pieces.{Held};

use sheet::sheets::Sheet;
use terms::names::Name;
use terms::words::Basis;

/// An account with its counts as the book keeps them: a long and a short one for each series of the sheet, none above 100,000.
#[derive(Clone, Copy)]
pub struct Account<'a> {
    pub sheet: Sheet<'a>,
    pub name: Name,
    pub basis: Basis,
    pub longs: &'a [u32],
    pub shorts: &'a [u32],
    ghost each_long: { length longs.now ≡ length sheet.series.now },
    ghost each_short: { length shorts.now ≡ length sheet.series.now },
    ghost held: { Held longs.now shorts.now },
}
