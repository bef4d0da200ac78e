//! Accounts of the example, margined by PRiME's charge, by a sum of three parts and by a flat rate.
use crate::margins::{Wanted, show_margin};
use book::books::Book;
use charge::composites::{Greater, Sum, prime};
use charge::minimum::Minimum;
use charge::scanning::Scanning;
use charge::spread::Spread;
use closing::memory::{ACCOUNT, CLASS, SERIES};
use example::flat::FlatRate;
use example::market::{list_both, open_house, open_omnibus};
use sheet::drafts::DraftSheet;
use sheet::sheets::Sheet;
use std::io;
use terms::faults::Fault;

/// The accounts' names.
const OMNIBUS: &[u8] = b"OMNIBUS";

const HOUSE: &[u8] = b"HOUSE";

pub(crate) fn show_accounts(rt: &HostRuntime) -> io::Result<()> {
    let mut classes = [CLASS; 2];
    let mut series = [SERIES; 3];
    let mut draft = DraftSheet::new(&mut classes, &mut series);
    if list_both(&mut draft).is_err() {
        return println!(rt; "the example's sheet is refused");
    }
    show_on(rt, draft.seal())
}

/// Opens the accounts on the sealed sheet.
fn show_on(rt: &HostRuntime, sheet: Sheet) -> io::Result<()> {
    let mut accounts = [ACCOUNT; 2];
    let mut counts = [0u32; 512];
    let mut book = Book::new(sheet, &mut accounts, &mut counts);
    if open_both(&mut book).is_err() {
        return println!(rt; "the example's accounts are refused");
    }
    show_prime(rt, &book)?;
    show_three_parts(rt, &book)?;
    show_flat(rt, &book)?;
    show_greater_flat(rt, &book)
}

fn open_both(book: &mut Book) -> Result<(), Fault> {
    open_omnibus(book)?;
    open_house(book)
}

/// PRiME's charge: the house owes 147,525.00 less 3,900.00 RMB at 1.2.
fn show_prime(rt: &HostRuntime, book: &Book) -> io::Result<()> {
    let omnibus = Wanted {
        figures: [26_800_000, 15_000_000],
        sums: [26_800_000, 15_000_000],
        value: 448_000_000_000,
        owed: [26_800_000, 15_000_000],
        requirement: 448_000_000_000,
    };
    show_margin(rt, "omnibus by PRiME", &prime(), book, OMNIBUS, &omnibus)?;
    let house = Wanted {
        figures: [14_752_500, -390_000],
        sums: [14_752_500, -390_000],
        value: 142_845_000_000,
        owed: [14_284_500, 0],
        requirement: 142_845_000_000,
    };
    show_margin(rt, "house by PRiME", &prime(), book, HOUSE, &house)
}

/// Scanning plus spread plus minimum: the minimum comes on top, in a gross account series by series.
fn show_three_parts(rt: &HostRuntime, book: &Book) -> io::Result<()> {
    let charge = Sum(Sum(Scanning, Spread), Minimum);
    let omnibus = Wanted {
        figures: [28_200_000, 15_500_000],
        sums: [28_200_000, 15_500_000],
        value: 468_000_000_000,
        owed: [28_200_000, 15_500_000],
        requirement: 468_000_000_000,
    };
    show_margin(
        rt,
        "omnibus by three parts",
        &charge,
        book,
        OMNIBUS,
        &omnibus,
    )?;
    let house = Wanted {
        figures: [15_552_500, -390_000],
        sums: [15_552_500, -390_000],
        value: 150_845_000_000,
        owed: [15_084_500, 0],
        requirement: 150_845_000_000,
    };
    show_margin(rt, "house by three parts", &charge, book, HOUSE, &house)
}

/// The broker's 1.50 for every contract, long or short, after netting.
fn show_flat(rt: &HostRuntime, book: &Book) -> io::Result<()> {
    let charge = FlatRate { cents: 150 };
    let omnibus = Wanted {
        figures: [12_810_500, 8_007_500],
        sums: [12_810_500, 8_007_500],
        value: 224_195_000_000,
        owed: [12_810_500, 8_007_500],
        requirement: 224_195_000_000,
    };
    show_margin(rt, "omnibus by flat rate", &charge, book, OMNIBUS, &omnibus)?;
    let house = Wanted {
        figures: [7_606_750, -4_795_500],
        sums: [7_606_750, -4_795_500],
        value: 18_521_500_000,
        owed: [1_852_150, 0],
        requirement: 18_521_500_000,
    };
    show_margin(rt, "house by flat rate", &charge, book, HOUSE, &house)
}

/// The greater of the minimum and 150.00 for every contract: here the one, there the other.
fn show_greater_flat(rt: &HostRuntime, book: &Book) -> io::Result<()> {
    let charge = Greater(Minimum, FlatRate { cents: 15_000 });
    let omnibus = Wanted {
        figures: [14_200_000, 8_750_000],
        sums: [14_200_000, 8_750_000],
        value: 247_000_000_000,
        owed: [14_200_000, 8_750_000],
        requirement: 247_000_000_000,
    };
    show_margin(
        rt,
        "omnibus by minimum or flat rate",
        &charge,
        book,
        OMNIBUS,
        &omnibus,
    )?;
    let house = Wanted {
        figures: [8_400_000, -4_350_000],
        sums: [8_400_000, -4_350_000],
        value: 31_800_000_000,
        owed: [3_180_000, 0],
        requirement: 31_800_000_000,
    };
    show_margin(
        rt,
        "house by minimum or flat rate",
        &charge,
        book,
        HOUSE,
        &house,
    )
}
