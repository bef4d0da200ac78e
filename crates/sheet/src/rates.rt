//! The rates of the currencies that are on a sheet.
ghost use Rattle.std.specs.Prelude.{◌≡◌, ℕ, ◌≤◌, slice_index};

use terms::words::Currency;

/// A rate for each currency that is on the sheet: HKD's own is 10,000, and none is above 200,000.
// 0 stands for a currency that is not there: what an account owes is worked out over all five, so an option would become this 0 at once
// in `factors`. `quotes` tells it apart, and the offset, which divides by a rate only where there is one.
#[derive(Clone, Copy)]
pub struct Rates {
    by_number: [u32; 5],
    ghost home: { slice_index by_number 0 ≡ 10000 },
    ghost most: { (k : ℕ) → slice_index by_number k ≤ 200000 },
}

impl Rates {
    ghost use Rattle.std.specs.Prelude.{◌≡◌, ℕ, ◌≤◌, [], ◌∷◌, slice_index, slice_set, false};
    ghost use Rattle.terms.specs.Words.{currency_number};
    ghost use Rattle.sheet.specs.Limits.{quoted};

    /// HKD's own rate alone.
    pub fn home() -> Rates
        ensures value { result.by_number ≡ 10000 ∷ 0 ∷ 0 ∷ 0 ∷ 0 ∷ [] }
    {
        Rates {
            by_number: [10_000, 0, 0, 0, 0],
        }
    }

    /// Whether a currency is on the sheet.
    pub fn quotes(&self, currency: Currency) -> bool
        ensures value { result ≡ quoted self.now.by_number currency }
    {
        0 < self.by_number[currency.number()]
    }

    /// What the figures of each currency are multiplied by, by its number: nothing where it is not on the sheet.
    pub fn factors(&self) -> [u32; 5]
        ensures value { result ≡ self.now.by_number }
        ensures bound { (k : ℕ) → slice_index result k ≤ 200000 }
    {
        self.by_number // in the order of the currencies
    }

    /// Puts a currency on the sheet that is not there yet.
    pub(crate) fn put(&mut self, currency: Currency, rate: u32)
        requires new { quoted self.old.by_number currency ≡ false }
        requires most { rate ≤ 200000 }
        ensures after { self.new.by_number ≡ slice_set self.old.by_number (currency_number currency) rate }
    {
        self.by_number[currency.number()] = rate;
    }
}
