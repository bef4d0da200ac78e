//! What fills the memory that a sheet and a book are lent; nothing reads it before it is written.
// Constants: a `Default` would offer a row without code or month wherever a row is wanted.
use book::rows::AccountRow;
use sheet::rows::{ClassRow, Series};
use terms::codes::Code;
use terms::keys::SeriesKey;
use terms::names::Name;
use terms::words::{Basis, Currency, Kind, Side};

const CODE: Code = Code {
    first: 0,
    second: 0,
    third: 0,
};

const KEY: SeriesKey = SeriesKey {
    class: CODE,
    month: 0,
    kind: Kind::Call,
    strike: 0,
};

pub const CLASS: ClassRow = ClassRow {
    code: CODE,
    currency: Currency::Hkd,
    spread_rate: None,
    minimum_rate: 0,
};

pub const SERIES: Series = Series {
    key: KEY,
    price: 0,
    shares: 0,
    delta: 0,
    array: [0; 16],
};

pub const ACCOUNT: AccountRow = AccountRow {
    name: Name { text: [0; 20] },
    basis: Basis::Gross,
    side: Side::Client,
    slot: 0,
};
