//! A code of three capitals: a class's, or a currency's as it is written.
ghost use Rattle.std.specs.Prelude.{◌≡◌, Some};
ghost use Rattle.terms.specs.Codes.{proper, lettered, code_of, currency_code, currency_of};
ghost use Rattle.terms.specs.Limits.{Gives};
ghost use Rattle.terms.specs.Words.{currency_letters};

use crate::limits::OutsideLimits;
use crate::words::Currency;
use std::fmt;
use std::fmt::{Display, Write};
use std::str::from_utf8;

// Three fields, as a line's pattern and the rule books name them; an array would say its length again wherever one is read.
#[derive(Clone, Copy, PartialEq, Eq, PartialOrd, Ord, Debug)]
pub struct Code {
    pub first: u8,
    pub second: u8,
    pub third: u8,
}

impl Code {
    /// Whether all three are capitals.
    pub fn is_proper(&self) -> bool
        ensures value { result ≡ proper self.now }
    {
        self.first.is_ascii_uppercase()
            && self.second.is_ascii_uppercase()
            && self.third.is_ascii_uppercase()
    }
}

impl From<[u8; 3]> for Code {
    ghost from_gives = { λ letters c. c ≡ code_of letters };

    fn from(letters: [u8; 3]) -> Code {
        let [first, second, third] = letters;
        Code {
            first,
            second,
            third,
        }
    }
}

/// The code that a currency is written by.
impl From<Currency> for Code {
    ghost from_gives = { λ currency c. c ≡ currency_code currency };

    fn from(currency: Currency) -> Code {
        match currency {
            Currency::Hkd => Code::from(*b"HKD"),
            Currency::Usd => Code::from(*b"USD"),
            Currency::Eur => Code::from(*b"EUR"),
            Currency::Jpy => Code::from(*b"JPY"),
            Currency::Rmb => Code::from(*b"RMB"),
        }
    }
}

/// The currency that a code writes, if it is one of the five.
impl TryFrom<Code> for Currency {
    type Error = OutsideLimits;

    ghost try_from_gives = { λ code r. Gives (currency_of code) r };

    fn try_from(code: Code) -> Result<Currency, OutsideLimits> {
        Currency::ALL
            .iter()
            .find(|currency| code == Code::from(**currency))
            .copied()
            .ok_or(OutsideLimits)
    }
}

/// A code prints as its letters; bytes that are no text are not printed.
impl fmt::Display for Code {
    ghost output = { λ c. Some (lettered c) };

    fn fmt<W: fmt::Write>(&self, f: &mut fmt::Formatter<W>) -> fmt::Result {
        let letters = [self.first, self.second, self.third];
        f.write_str(from_utf8(&letters).map_err(|_| fmt::Error)?)
    }
}

/// A currency prints as its code.
impl fmt::Display for Currency {
    ghost output = { λ c. Some (currency_letters c) };

    fn fmt<W: fmt::Write>(&self, f: &mut fmt::Formatter<W>) -> fmt::Result {
        Code::from(*self).fmt(f)
    }
}
