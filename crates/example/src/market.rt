//! The clearing house's example: its market, and the accounts that are margined on it.
use book::books::Book;
use sheet::drafts::DraftSheet;
use sheet::rows::Listing;
use terms::codes::Code;
use terms::faults::Fault;
use terms::keys::AskedKey;
use terms::words::{Basis, Currency, Kind, Leg, Side};

/// The HKD class.
const HKZ: Code = Code {
    first: b'H',
    second: b'K',
    third: b'Z',
};

/// The RMB class.
const RMZ: Code = Code {
    first: b'R',
    second: b'M',
    third: b'Z',
};

const CALL: AskedKey = AskedKey {
    class: HKZ,
    month: 202_612,
    kind: Kind::Call,
    strike: 9_500,
};

const PUT: AskedKey = AskedKey {
    class: HKZ,
    month: 202_701,
    kind: Kind::Put,
    strike: 10_000,
};

const YUAN_PUT: AskedKey = AskedKey {
    class: RMZ,
    month: 202_701,
    kind: Kind::Put,
    strike: 9_000,
};

/// What one long contract of the December 95 call loses in each scenario, in cents.
const DECEMBER_CALL: [i64; 16] = [
    0, 10_000, -60_000, -60_000, 60_000, 60_000, -120_000, -120_000, 130_000, 130_000, -200_000,
    -190_000, 210_000, 190_000, -150_000, 130_000,
];

/// The same of the January 100 put.
const JANUARY_PUT: [i64; 16] = [
    0, 0, 70_000, 60_000, -60_000, -50_000, 130_000, 130_000, -120_000, -110_000, 210_000, 200_000,
    -200_000, -180_000, 140_000, -120_000,
];

/// The same of the RMB class's January 90 put.
const RMB_PUT: [i64; 16] = [
    0, 0, 49_000, 42_000, -42_000, -35_000, 91_000, 91_000, -84_000, -77_000, 147_000, 140_000,
    -140_000, -126_000, 98_000, -84_000,
];

/// A series at its price in cents, with its composite delta; one contract is for 400 shares.
fn listed(key: AskedKey, price: i64, delta: i64) -> Listing {
    Listing {
        key,
        price,
        shares: 400,
        delta,
    }
}

/// Lists the HKD class: spread rate 900 for one delta, minimum 200.00 for one short.
pub fn list_home(draft: &mut DraftSheet) -> Result<(), Fault> {
    draft.add_class(HKZ, Currency::Hkd, Some(900), 20_000)?;
    draft.add_series(listed(CALL, 600, 45), DECEMBER_CALL)?;
    draft.add_series(listed(PUT, 400, -52), JANUARY_PUT)
}

/// Lists the RMB class beside it, at 1.2: spread rate 720, minimum 100.00.
pub fn list_both(draft: &mut DraftSheet) -> Result<(), Fault> {
    list_home(draft)?;
    draft.add_rate(Currency::Rmb, 12_000)?;
    draft.add_class(RMZ, Currency::Rmb, Some(720), 10_000)?;
    draft.add_series(listed(YUAN_PUT, 400, -50), RMB_PUT)
}

/// The omnibus account, gross: 20 calls short, 10 puts long and 50 short, 50 RMB puts short.
pub fn open_omnibus(book: &mut Book) -> Result<(), Fault> {
    book.open(b"OMNIBUS", Basis::Gross, Side::Client)?;
    book.post(b"OMNIBUS", CALL, Leg::Short, 20)?;
    book.post(b"OMNIBUS", PUT, Leg::Long, 10)?;
    book.post(b"OMNIBUS", PUT, Leg::Short, 50)?;
    book.post(b"OMNIBUS", YUAN_PUT, Leg::Short, 50)
}

/// The house account, net: 5 calls short, 10 puts long and 50 short, 30 RMB puts long.
pub fn open_house(book: &mut Book) -> Result<(), Fault> {
    book.open(b"HOUSE", Basis::Net, Side::House)?;
    book.post(b"HOUSE", CALL, Leg::Short, 5)?;
    book.post(b"HOUSE", PUT, Leg::Long, 10)?;
    book.post(b"HOUSE", PUT, Leg::Short, 50)?;
    book.post(b"HOUSE", YUAN_PUT, Leg::Long, 30)
}
