//! Two accounts that lean against each other: each alone has no spread, and joined they have one.
use crate::pools::{show_pool, show_requirement};
use crate::series::HKZ;
use book::books::Book;
use closing::memory::{ACCOUNT, CLASS, SERIES};
use sheet::drafts::DraftSheet;
use sheet::rows::Listing;
use sheet::sheets::Sheet;
use std::io;
use terms::faults::Fault;
use terms::keys::AskedKey;
use terms::words::{Basis, Currency, Kind, Leg, Side};

const DECEMBER: AskedKey = AskedKey {
    class: HKZ,
    month: 202_612,
    kind: Kind::Call,
    strike: 9_500,
};

const JANUARY: AskedKey = AskedKey {
    class: HKZ,
    month: 202_701,
    kind: Kind::Call,
    strike: 9_500,
};

pub(crate) fn show_leaning(rt: &HostRuntime) -> io::Result<()> {
    let mut classes = [CLASS; 1];
    let mut series = [SERIES; 2];
    let mut draft = DraftSheet::new(&mut classes, &mut series);
    if list(&mut draft).is_err() {
        return println!(rt; "the leaning accounts' sheet is refused");
    }
    show_on(rt, draft.seal())
}

/// A series that costs nothing and loses nothing.
fn listed(key: AskedKey, delta: i64) -> Listing {
    Listing {
        key,
        price: 0,
        shares: 400,
        delta,
    }
}

/// One class at spread rate 900 and no minimum.
fn list(draft: &mut DraftSheet) -> Result<(), Fault> {
    draft.add_class(HKZ, Currency::Hkd, Some(900), 0)?;
    draft.add_series(listed(DECEMBER, 45), [0; 16])?;
    draft.add_series(listed(JANUARY, 40), [0; 16])
}

/// +2.25 in December against -5.20 in January.
fn open(book: &mut Book) -> Result<(), Fault> {
    book.open(b"RISING", Basis::Net, Side::Client)?;
    book.open(b"FALLING", Basis::Net, Side::Client)?;
    book.post(b"RISING", DECEMBER, Leg::Long, 5)?;
    book.post(b"FALLING", JANUARY, Leg::Short, 13)
}

fn show_on(rt: &HostRuntime, sheet: Sheet) -> io::Result<()> {
    let mut accounts = [ACCOUNT; 2];
    let mut counts = [0u32; 512];
    let mut book = Book::new(sheet, &mut accounts, &mut counts);
    if open(&mut book).is_err() {
        return println!(rt; "the leaning accounts are refused");
    }
    println!(rt; "two accounts that lean against each other")?;
    show_requirement(rt, &book, "RISING")?;
    show_requirement(rt, &book, "FALLING")?;
    show_pool(rt, &book, Some(Side::Client))
}
