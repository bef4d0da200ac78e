//! The ten kinds of line, and the record whose written form a line is.
ghost use Rattle.lines.specs.Columns.{Is, Isnt};
ghost use Rattle.lines.specs.Laws.{OneAccount, OneRecord};
ghost use Rattle.lines.specs.Records.{Says, Sound, meant, written};
ghost use Rattle.std.specs.Prelude.{MatchOption};

use crate::columns::{ended, number_at, number_or_blank_at};
use crate::names::name_at;
use crate::words::{code_at, key_at, word_at};
use terms::codes::Code;
use terms::keys::AskedKey;
use terms::words::{Basis, Leg, Side};

/// What a line says. A name stands without the blanks at its right.
#[derive(Clone, Copy, PartialEq, Eq, Debug)]
pub enum Record<'a> {
    Class {
        code: Code,
        currency: Code,
        spread: Option<i64>,
        minimum: i64,
    },
    Series {
        key: AskedKey,
        price: i64,
        shares: i64,
        delta: i64,
    },
    Array {
        values: [i64; 8],
    },
    Rate {
        currency: Code,
        rate: i64,
    },
    End,
    Account {
        name: &'a [u8],
        basis: Basis,
        side: Side,
    },
    Post {
        name: &'a [u8],
        key: AskedKey,
        leg: Leg,
        contracts: i64,
    },
    CloseOut {
        name: &'a [u8],
        key: AskedKey,
        contracts: i64,
    },
    Move {
        from: &'a [u8],
        to: &'a [u8],
        key: AskedKey,
        leg: Leg,
        contracts: i64,
    },
    Deposit {
        side: Side,
        currency: Code,
        cents: i64,
    },
}

/// C: class, currency, spread rate or blanks, minimum rate.
fn read_class(s: &[u8]) -> Option<Record<'_>>
    ensures { Says 67 s.now result }
{
    let (code, s) = code_at(s)?;
    let (currency, s) = code_at(s)?;
    let (spread, s) = number_or_blank_at(s, 6)?;
    let (minimum, s) = number_at(s, 7)?;
    ended(s)?;
    Some(Record::Class {
        code,
        currency,
        spread,
        minimum,
    })
}

/// S: key, price, shares of a contract, delta.
fn read_series(s: &[u8]) -> Option<Record<'_>>
    ensures { Says 83 s.now result }
{
    let (key, s) = key_at(s)?;
    let (price, s) = number_at(s, 8)?;
    let (shares, s) = number_at(s, 5)?;
    let (delta, s) = number_at(s, 4)?;
    ended(s)?;
    Some(Record::Series {
        key,
        price,
        shares,
        delta,
    })
}

/// R: eight values.
fn read_array(s: &[u8]) -> Option<Record<'_>>
    ensures { Says 82 s.now result }
{
    let mut values = [0; 8];
    let mut rest = s;
    for value in values.iter_mut() {
        (*value, rest) = number_at(rest, 9)?;
    }
    ended(rest)?;
    Some(Record::Array { values })
}

/// X: currency, rate.
fn read_rate(s: &[u8]) -> Option<Record<'_>>
    ensures { Says 88 s.now result }
{
    let (currency, s) = code_at(s)?;
    let (rate, s) = number_at(s, 6)?;
    ended(s)?;
    Some(Record::Rate { currency, rate })
}

/// E: nothing.
fn read_end(s: &[u8]) -> Option<Record<'_>>
    ensures { Says 69 s.now result }
{
    ended(s)?;
    Some(Record::End)
}

/// A: name, G or N, C or H.
fn read_account(s: &[u8]) -> Option<Record<'_>>
    ensures { Says 65 s.now result }
{
    let (name, s) = name_at(s)?;
    let (basis, s) = word_at::<Basis>(s)?;
    let (side, s) = word_at::<Side>(s)?;
    ended(s)?;
    Some(Record::Account { name, basis, side })
}

/// P: name, key, L or S, contracts.
fn read_post(s: &[u8]) -> Option<Record<'_>>
    ensures { Says 80 s.now result }
{
    let (name, s) = name_at(s)?;
    let (key, s) = key_at(s)?;
    let (leg, s) = word_at::<Leg>(s)?;
    let (contracts, s) = number_at(s, 6)?;
    ended(s)?;
    Some(Record::Post {
        name,
        key,
        leg,
        contracts,
    })
}

/// Q: name, key, contracts.
fn read_close_out(s: &[u8]) -> Option<Record<'_>>
    ensures { Says 81 s.now result }
{
    let (name, s) = name_at(s)?;
    let (key, s) = key_at(s)?;
    let (contracts, s) = number_at(s, 6)?;
    ended(s)?;
    Some(Record::CloseOut {
        name,
        key,
        contracts,
    })
}

/// M: two names, key, L or S, contracts.
fn read_move(s: &[u8]) -> Option<Record<'_>>
    ensures { Says 77 s.now result }
{
    let (from, s) = name_at(s)?;
    let (to, s) = name_at(s)?;
    let (key, s) = key_at(s)?;
    let (leg, s) = word_at::<Leg>(s)?;
    let (contracts, s) = number_at(s, 6)?;
    ended(s)?;
    Some(Record::Move {
        from,
        to,
        key,
        leg,
        contracts,
    })
}

/// D: C or H, currency, cents.
fn read_deposit(s: &[u8]) -> Option<Record<'_>>
    ensures { Says 68 s.now result }
{
    let (side, s) = word_at::<Side>(s)?;
    let (currency, s) = code_at(s)?;
    let (cents, s) = number_at(s, 13)?;
    ended(s)?;
    Some(Record::Deposit {
        side,
        currency,
        cents,
    })
}

/// The record whose written form a line is, its line feed with it.
#[tactic(auto, using(crate::proofs::Laws::one_record, crate::proofs::Laws::one_account))]
pub fn read_line(line: &[u8]) -> Option<Record<'_>>
    ensures reads { MatchOption result (Isnt written Sound line.now) (λ x. Is written Sound line.now (meant x)) }
    ensures one_record { OneRecord }
    ensures one_account { OneAccount }
{
    let (letter, rest) = line.split_first()?;
    match letter {
        b'C' => read_class(rest),
        b'S' => read_series(rest),
        b'R' => read_array(rest),
        b'X' => read_rate(rest),
        b'E' => read_end(rest),
        b'A' => read_account(rest),
        b'P' => read_post(rest),
        b'Q' => read_close_out(rest),
        b'M' => read_move(rest),
        b'D' => read_deposit(rest),
        _ => None,
    }
}
