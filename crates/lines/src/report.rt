//! The lines of a report: what an account owes, a collateral account's requirement and call, a fault.
ghost use Rattle.std.specs.Prelude.{◌≡◌, ◌+◌, ◌^◌, ◌<◌, ◌≤◌, ◌∷◌, ◌++◌, length, drop, pos, Some};
ghost use Rattle.lines.specs.Columns.{column};
ghost use Rattle.lines.specs.Report.{amount, call_line, fault_line, owed_line};
ghost use Rattle.terms.specs.Words.{currency_letters};

use std::fmt;
use std::str::from_utf8;
use terms::codes::Code;
use terms::letters::Lettered;
use terms::names::Name;
use terms::words::{Currency, Refusal, Side};

/// K: what an account owes in a currency, in 41 bytes.
#[derive(Clone, Copy)]
pub struct OwedLine {
    pub name: Name,
    pub currency: Currency,
    pub owed: u64,
    ghost fits: { owed < 10 ^ 13 },
}

/// N: the requirement of a side and the call on it, in a currency, in 36 bytes.
#[derive(Clone, Copy)]
pub struct CallLine {
    pub side: Side,
    pub currency: Currency,
    pub requirement: u64,
    pub call: u64,
    ghost requirement_fits: { requirement < 10 ^ 13 },
    ghost call_fits: { call < 10 ^ 13 },
}

/// F: the number of a line at fault, and of its refusal, in 13 bytes. A reader's numbers of lines fit seven columns.
#[derive(Clone, Copy)]
pub struct FaultLine {
    pub line: u32,
    pub refusal: Refusal,
    ghost fits: { line < 10 ^ 7 },
}

/// Writes a number at the right of a field.
fn put_number(out: &mut [u8], n: u64)
    requires some { 0 < length out.old }
    requires room { n < 10 ^ length out.old }
    ensures value { out.new ≡ column (length out.old) (pos n) }
{
    // From the last digit on, by a place: how many digits there are shows only at the first.
    let mut i = out.len() - 1;
    let mut left = n;
    while left >= 10 {
        out[i] = b'0' + (left % 10) as u8;
        left /= 10;
        i -= 1;
    }
    out[i] = b'0' + left as u8;
    out[..i].fill(b' ');
}

/// Writes a blank and a field at a place, before what stands behind them.
fn put_field(out: &mut [u8], at: usize, field: &[u8])
    requires room { at + 1 + length field.now ≤ length out.old }
    ensures after { drop at out.new ≡ 32 ∷ (field.now ++ drop (at + 1 + length field.now) out.old) }
{
    out[at + 1..at + 1 + field.len()].copy_from_slice(field);
    out[at] = b' ';
}

/// Writes a blank and a currency's code at a place.
fn put_currency(out: &mut [u8], at: usize, currency: Currency)
    requires room { at + 4 ≤ length out.old }
    ensures after { drop at out.new ≡ 32 ∷ (currency_letters currency ++ drop (at + 4) out.old) }
{
    let code = Code::from(currency);
    put_field(out, at, &[code.first, code.second, code.third]);
}

/// Writes a blank and an amount of thirteen columns at a place.
fn put_figure(out: &mut [u8], at: usize, figure: u64)
    requires room { at + 14 ≤ length out.old }
    requires figure { figure < 10 ^ 13 }
    ensures after { drop at out.new ≡ 32 ∷ (amount figure ++ drop (at + 14) out.old) }
{
    let mut field = [b' '; 13];
    put_number(&mut field, figure);
    put_field(out, at, &field);
}

// The three below ask that each figure fits its column, which a plain number cannot carry; the lines above carry it, and hand it on.

/// K: what an account owes in a currency. A line is put from its end, each field before what follows it.
pub fn put_owed(out: &mut [u8; 41], name: &Name, currency: Currency, owed: u64)
    requires { owed < 10 ^ 13 }
    ensures value { out.new ≡ owed_line name.now currency owed }
{
    out[40] = b'\n';
    put_figure(out, 26, owed);
    put_currency(out, 22, currency);
    put_field(out, 1, &name.text);
    out[0] = b'K';
}

/// N: the requirement of a side and the call on it, in a currency.
pub fn put_call(out: &mut [u8; 36], side: Side, currency: Currency, requirement: u64, call: u64)
    requires requirement { requirement < 10 ^ 13 }
    requires call { call < 10 ^ 13 }
    ensures value { out.new ≡ call_line side currency requirement call }
{
    out[35] = b'\n';
    put_figure(out, 21, call);
    put_figure(out, 7, requirement);
    put_currency(out, 3, currency);
    put_field(out, 1, &[side.letter()]);
    out[0] = b'N';
}

/// F: the number of a line at fault, and of its refusal.
pub fn put_fault(out: &mut [u8; 13], line: u32, refusal: Refusal)
    requires { line < 10 ^ 7 }
    ensures value { out.new ≡ fault_line line refusal }
{
    let mut place = [b' '; 7];
    put_number(&mut place, u64::from(line));
    let mut number = [b' '; 2];
    put_number(&mut number, u64::from(refusal.number()));
    out[12] = b'\n';
    put_field(out, 9, &number);
    put_field(out, 1, &place);
    out[0] = b'F';
}

impl fmt::Display for OwedLine {
    ghost output = { λ x. Some (owed_line x.name x.currency x.owed) };

    fn fmt<W: fmt::Write>(&self, f: &mut fmt::Formatter<W>) -> fmt::Result {
        let mut line = [b' '; 41];
        put_owed(&mut line, &self.name, self.currency, self.owed);
        // A name that a text spells is ASCII; bytes that are no text are not printed.
        f.write_str(from_utf8(&line).map_err(|_| fmt::Error)?)
    }
}

impl fmt::Display for CallLine {
    ghost output = { λ x. Some (call_line x.side x.currency x.requirement x.call) };

    fn fmt<W: fmt::Write>(&self, f: &mut fmt::Formatter<W>) -> fmt::Result {
        let mut line = [b' '; 36];
        put_call(
            &mut line,
            self.side,
            self.currency,
            self.requirement,
            self.call,
        );
        f.write_str(from_utf8(&line).map_err(|_| fmt::Error)?)
    }
}

impl fmt::Display for FaultLine {
    ghost output = { λ x. Some (fault_line x.line x.refusal) };

    fn fmt<W: fmt::Write>(&self, f: &mut fmt::Formatter<W>) -> fmt::Result {
        let mut line = [b' '; 13];
        put_fault(&mut line, self.line, self.refusal);
        f.write_str(from_utf8(&line).map_err(|_| fmt::Error)?)
    }
}
