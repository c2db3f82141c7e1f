// The last lines: what stands in the book.
use super::desk::Desk;
use book::books::Ledger;
use replay::calls::AnyBook;
use rows::load::LoadRow;
use rows::qse::QseRow;
use std::alloc::AllocError;

fn ledger_of(book: &AnyBook) -> Ledger {
    match book {
        AnyBook::Open(open) => open.ledger,
        AnyBook::Struck(struck) => struck.ledger,
    }
}

pub(crate) fn say_closing(out: &mut String, desk: &Desk, book: &AnyBook) -> Result<(), AllocError> {
    let ledger = ledger_of(book);
    say_qses(out, desk.qses.as_slice(), ledger.counts.qses)?;
    say_loads(out, desk.loads.as_slice(), ledger.counts.loads)?;
    writeln!(
        out,
        "claims made {} outstanding {}",
        ledger.made, ledger.outstanding
    )
}

fn say_qses(out: &mut String, rows: &[QseRow], count: usize) -> Result<(), AllocError> {
    for row in rows.get(0..count).unwrap_or(rows) {
        writeln!(
            out,
            "qse {} shortfall {} cents {}",
            row.number, row.shortfall, row.cents
        )?;
    }
    Ok(())
}

fn say_loads(out: &mut String, rows: &[LoadRow], count: usize) -> Result<(), AllocError> {
    for row in rows.get(0..count).unwrap_or(rows) {
        writeln!(
            out,
            "load {} {} {} cents {}",
            row.qse, row.point, row.kwh, row.cents
        )?;
    }
    Ok(())
}
