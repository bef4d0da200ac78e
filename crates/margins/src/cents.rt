//! A credit of 0.01 HKD against a debit of 0.01 RMB, which is worth 0.012 HKD: the credit cannot pay the cent, and the cent stays owed.
use crate::margins::{Wanted, show_margin};
use book::books::Book;
use charge::composites::prime;
use closing::memory::{ACCOUNT, CLASS, SERIES};
use sheet::drafts::DraftSheet;
use sheet::rows::Listing;
use sheet::sheets::Sheet;
use std::io;
use terms::codes::Code;
use terms::faults::Fault;
use terms::keys::AskedKey;
use terms::words::{Basis, Currency, Kind, Leg, Side};

const HKC: Code = Code {
    first: b'H',
    second: b'K',
    third: b'C',
};

const RMC: Code = Code {
    first: b'R',
    second: b'M',
    third: b'C',
};

pub(crate) fn show_cents(rt: &HostRuntime) -> io::Result<()> {
    let mut classes = [CLASS; 2];
    let mut series = [SERIES; 2];
    let mut draft = DraftSheet::new(&mut classes, &mut series);
    if list(&mut draft).is_err() {
        return println!(rt; "the cents' sheet is refused");
    }
    show_on(rt, draft.seal())
}

/// The call of a class; one contract of it is worth one cent and loses nothing.
fn cent_of(class: Code) -> AskedKey {
    AskedKey {
        class,
        month: 202_612,
        kind: Kind::Call,
        strike: 100,
    }
}

fn listed(class: Code) -> Listing {
    Listing {
        key: cent_of(class),
        price: 1,
        shares: 1,
        delta: 0,
    }
}

/// One class in HKD and one in RMB, at 1.2.
fn list(draft: &mut DraftSheet) -> Result<(), Fault> {
    draft.add_rate(Currency::Rmb, 12_000)?;
    draft.add_class(HKC, Currency::Hkd, None, 0)?;
    draft.add_class(RMC, Currency::Rmb, None, 0)?;
    draft.add_series(listed(HKC), [0; 16])?;
    draft.add_series(listed(RMC), [0; 16])
}

/// One HKD contract long and one RMB contract short.
fn open(book: &mut Book) -> Result<(), Fault> {
    book.open(b"CENTS", Basis::Net, Side::Client)?;
    book.post(b"CENTS", cent_of(HKC), Leg::Long, 1)?;
    book.post(b"CENTS", cent_of(RMC), Leg::Short, 1)
}

fn show_on(rt: &HostRuntime, sheet: Sheet) -> io::Result<()> {
    let mut accounts = [ACCOUNT; 1];
    let mut counts = [0u32; 256];
    let mut book = Book::new(sheet, &mut accounts, &mut counts);
    if open(&mut book).is_err() {
        return println!(rt; "the cents' account is refused");
    }
    let wanted = Wanted {
        figures: [-1, 1],
        sums: [-1, 1],
        value: 2_000,
        owed: [0, 1],
        requirement: 12_000,
    };
    show_margin(
        rt,
        "a cent of HKD against a cent of RMB",
        &prime(),
        &book,
        b"CENTS",
        &wanted,
    )
}
