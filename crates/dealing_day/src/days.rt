//! The day on the example's market.
use crate::calls::{Call, Lot};
use crate::contracts::Contracts;
use crate::orders::show_orders;
use crate::pools::{show_pools, show_requirement};
use crate::series::Listed;
use book::books::Book;
use closing::memory::{ACCOUNT, CLASS, SERIES};
use example::market::list_both;
use sheet::drafts::DraftSheet;
use sheet::sheets::Sheet;
use std::io;
use terms::words::{Basis, Leg, Side};

/// The day's accounts; the third is a client's, net.
const OPENINGS: [Call; 5] = [
    Call::Open("OMNIBUS", Basis::Gross, Side::Client),
    Call::Open("HOUSE", Basis::Net, Side::House),
    Call::Open("FUND-7", Basis::Net, Side::Client),
    Call::Open("fund 8", Basis::Net, Side::Client),
    Call::Open("HOUSE", Basis::Gross, Side::Client),
];

const fn lot(series: Listed, leg: Leg, contracts: i64) -> Lot {
    Lot {
        series,
        leg,
        contracts,
    }
}

pub(crate) fn show_day(rt: &HostRuntime) -> io::Result<()> {
    let mut classes = [CLASS; 2];
    let mut series = [SERIES; 3];
    let mut draft = DraftSheet::new(&mut classes, &mut series);
    if list_both(&mut draft).is_err() {
        return println!(rt; "the example's sheet is refused");
    }
    show_on(rt, draft.seal())
}

/// Deals on the sealed sheet, and shows the bounds of the book.
fn show_on(rt: &HostRuntime, sheet: Sheet) -> io::Result<()> {
    let mut accounts = [ACCOUNT; 3];
    let mut counts = [0u32; 768];
    let mut book = Book::new(sheet, &mut accounts, &mut counts);
    let mut contracts = Contracts::none();
    make_all(rt, &mut book, &mut contracts, &OPENINGS)?;
    make_all(rt, &mut book, &mut contracts, &omnibus_postings())?;
    make_all(rt, &mut book, &mut contracts, &net_postings())?;
    make_all(rt, &mut book, &mut contracts, &close_outs_and_moves())?;
    contracts.show(rt, &book)?;
    show_orders(rt, &mut book)?;
    contracts.show(rt, &book)?;
    show_requirement(rt, &book, "OMNIBUS")?;
    show_requirement(rt, &book, "HOUSE")?;
    show_requirement(rt, &book, "FUND-7")?;
    show_pools(rt, &book)
}

fn make_all(
    rt: &HostRuntime,
    book: &mut Book,
    contracts: &mut Contracts,
    calls: &[Call],
) -> io::Result<()> {
    for call in calls {
        call.make(rt, book, contracts)?;
    }
    Ok(())
}

fn omnibus_postings() -> [Call<'static>; 7] {
    [
        Call::Post("OMNIBUS", lot(Listed::Call, Leg::Short, 20)),
        Call::Post("OMNIBUS", lot(Listed::Put, Leg::Long, 10)),
        Call::Post("OMNIBUS", lot(Listed::Put, Leg::Short, 50)),
        Call::Post("OMNIBUS", lot(Listed::YuanPut, Leg::Short, 50)),
        Call::Post("OMNIBUS", lot(Listed::Put, Leg::Short, 100_001)),
        Call::Post("OMNIBUS", lot(Listed::Put, Leg::Short, 99_951)),
        Call::Post("NOBODY", lot(Listed::Call, Leg::Long, 1)),
    ]
}

fn net_postings() -> [Call<'static>; 6] {
    [
        Call::Post("HOUSE", lot(Listed::Call, Leg::Short, 5)),
        Call::Post("HOUSE", lot(Listed::Put, Leg::Long, 10)),
        Call::Post("HOUSE", lot(Listed::Put, Leg::Short, 50)),
        Call::Post("HOUSE", lot(Listed::YuanPut, Leg::Long, 30)),
        Call::Post("FUND-7", lot(Listed::Call, Leg::Long, 12)),
        Call::Post("FUND-7", lot(Listed::YuanPut, Leg::Short, 8)),
    ]
}

fn close_outs_and_moves() -> [Call<'static>; 6] {
    [
        Call::CloseOut("OMNIBUS", Listed::Put, 10),
        Call::CloseOut("HOUSE", Listed::Put, 4),
        Call::CloseOut("HOUSE", Listed::Put, 7),
        Call::Move("OMNIBUS", "FUND-7", lot(Listed::YuanPut, Leg::Short, 15)),
        Call::Move("OMNIBUS", "FUND-7", lot(Listed::Call, Leg::Short, 21)),
        Call::Move("HOUSE", "HOUSE", lot(Listed::Put, Leg::Short, 1)),
    ]
}
