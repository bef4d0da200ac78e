//! The rows of the sheet, each found by its key, and a series as it is listed.
ghost use Rattle.terms.specs.Codes.{lettered};
ghost use Rattle.terms.specs.Keys.{figured};

use register::Keyed;
use std::cmp::Ordering;
use terms::codes::Code;
use terms::keys::{AskedKey, SeriesKey};
use terms::words::Currency;

/// A class: the spread rate in whole units for one delta, none where none is published, and the minimum rate in cents for one short contract.
#[derive(Clone, Copy)]
pub struct ClassRow {
    pub code: Code,
    pub currency: Currency,
    pub spread_rate: Option<u32>,
    pub minimum_rate: u32,
}

/// A series: the price in cents, the shares of one contract, the composite delta in hundredths, and the risk array of sixteen amounts.
#[derive(Clone, Copy)]
pub struct Series {
    pub key: SeriesKey,
    pub price: u32,
    pub shares: u32,
    pub delta: i64,
    pub array: [i64; 16],
}

/// A series as its own line gives it: not yet held against the limits, and without its array.
#[derive(Clone, Copy)]
pub struct Listing {
    pub key: AskedKey,
    pub price: i64,
    pub shares: i64,
    pub delta: i64,
}

impl Keyed for ClassRow {
    type Key = Code;

    ghost rank = { λ r. lettered r.code };

    ghost wanted = { lettered };

    fn key(&self) -> Code {
        self.code
    }

    #[tactic(auto, using(terms::specs::Compared::code_order))]
    fn compare(&self, key: &Code) -> Ordering {
        self.code.cmp(key)
    }
}

impl Keyed for Series {
    type Key = SeriesKey;

    ghost rank = { λ s. figured s.key };

    ghost wanted = { figured };

    fn key(&self) -> SeriesKey {
        self.key
    }

    #[tactic(auto, using(terms::specs::Compared::key_order))]
    fn compare(&self, key: &SeriesKey) -> Ordering {
        self.key.cmp(key)
    }
}
