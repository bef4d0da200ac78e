//! The closed lists of the subject, each with its number.
// A method and no `From`: `number` says at each use which number is meant, where `usize::from(side)` says nothing of it.
ghost use Rattle.std.specs.Prelude.{◌≡◌, ◌<◌};
ghost use Rattle.terms.specs.Words.{currency_number, side_number, leg_number, kind_number, refusal_number, layer_number, label_number};

use std::fmt;
use std::fmt::Write;

/// The five currencies, in their order.
#[derive(Clone, Copy, PartialEq, Eq, Debug)]
pub enum Currency {
    Hkd,
    Usd,
    Eur,
    Jpy,
    Rmb,
}

impl Currency {
    /// All five, each at the place of its number.
    pub const ALL: [Currency; 5] = [
        Currency::Hkd,
        Currency::Usd,
        Currency::Eur,
        Currency::Jpy,
        Currency::Rmb,
    ];

    pub fn number(self) -> usize
        ensures value { result ≡ currency_number self }
        ensures bound { result < 5 }
    {
        self as usize // the place in ALL
    }
}

/// The collateral account that an account settles through.
#[derive(Clone, Copy, PartialEq, Eq, Debug)]
pub enum Side {
    Client,
    House,
}

impl Side {
    pub fn number(self) -> usize
        ensures value { result ≡ side_number self }
        ensures bound { result < 2 }
    {
        self as usize
    }
}

/// How an account is margined: its shorts alone, or longs less shorts.
#[derive(Clone, Copy, PartialEq, Eq, Debug)]
pub enum Basis {
    Gross,
    Net,
}

/// The long or the short count of a series.
#[derive(Clone, Copy, PartialEq, Eq, Debug)]
pub enum Leg {
    Long,
    Short,
}

impl Leg {
    pub fn number(self) -> usize
        ensures value { result ≡ leg_number self }
        ensures bound { result < 2 }
    {
        self as usize
    }
}

/// Call or put; a call comes first.
#[derive(Clone, Copy, PartialEq, Eq, PartialOrd, Ord, Debug)]
pub enum Kind {
    Call,
    Put,
}

impl Kind {
    pub fn number(self) -> u32
        ensures value { result ≡ kind_number self }
    {
        self as u32
    }
}

/// Why something is refused: ten rows, of which the earliest that fits decides.
#[derive(Clone, Copy, PartialEq, Eq, PartialOrd, Ord, Debug)]
pub enum Refusal {
    BadLine = 1,
    Turn,
    Limit,
    Twice,
    Unknown,
    Full,
    NotHeld,
    Ceiling,
    TooLarge,
    Notice,
}

impl Refusal {
    pub fn number(self) -> u32
        ensures value { result ≡ refusal_number self }
    {
        self as u32
    }
}

/// The rule that refused, for a person.
impl fmt::Display for Refusal {
    fn fmt<W: fmt::Write>(&self, f: &mut fmt::Formatter<W>) -> fmt::Result {
        f.write_str(match self {
            Refusal::BadLine => "BAD-LINE: the line is no record's form, or lacks its line feed",
            Refusal::Turn => "TURN: this kind of line is not due here, or the input ends before E",
            Refusal::Limit =>
                "LIMIT: a field, a position or price times shares is outside its limits, or a move names one account twice",
            Refusal::Twice => "TWICE: the key is there already",
            Refusal::Unknown => "UNKNOWN: a name, class, series or currency is not there",
            Refusal::Full => "FULL: no more rows or lines are taken",
            Refusal::NotHeld => "NOT-HELD: fewer contracts are there than are taken",
            Refusal::Ceiling =>
                "CEILING: a count would pass 100,000, or collateral 10,000,000,000,000 cents",
            Refusal::TooLarge => "TOO-LARGE: a figure passes 100,000,000,000 cents in size",
            Refusal::Notice =>
                "NOTICE: a notice is out where none may be, or is not out where it is ended",
        })
    }
}

/// Which layer refused.
#[derive(Clone, Copy, PartialEq, Eq, Debug)]
pub enum Layer {
    Line = 1,
    Book,
    Account,
    Charge,
}

impl Layer {
    pub fn number(self) -> u32
        ensures value { result ≡ layer_number self }
    {
        self as u32
    }
}

/// The layer, for a person.
impl fmt::Display for Layer {
    fn fmt<W: fmt::Write>(&self, f: &mut fmt::Formatter<W>) -> fmt::Result {
        f.write_str(match self {
            Layer::Line => "line",
            Layer::Book => "book",
            Layer::Account => "account",
            Layer::Charge => "charge",
        })
    }
}

/// Which charge refused; a charge from elsewhere brings a number of its own.
#[derive(Clone, Copy, PartialEq, Eq, Debug)]
pub enum Label {
    Scanning,
    Spread,
    Minimum,
    Sum,
    Greater,
    Other(u32),
}

impl Label {
    pub fn number(self) -> u32
        ensures value { result ≡ label_number self }
    {
        match self {
            Label::Scanning => 1,
            Label::Spread => 2,
            Label::Minimum => 3,
            Label::Sum => 4,
            Label::Greater => 5,
            Label::Other(number) => number,
        }
    }
}

/// The charge, for a person.
impl fmt::Display for Label {
    fn fmt<W: fmt::Write>(&self, f: &mut fmt::Formatter<W>) -> fmt::Result {
        f.write_str(match self {
            Label::Scanning => "scanning",
            Label::Spread => "spread",
            Label::Minimum => "minimum",
            Label::Sum => "sum",
            Label::Greater => "greater",
            Label::Other(_) => "of its own",
        })
    }
}
