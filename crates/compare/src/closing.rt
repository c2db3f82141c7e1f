// What stands in both books at the end of a list.
use super::desk::{Desk, front};
use super::tally::Tally;
use book::books::Ledger;
use replay::calls::AnyBook;
use rows::load::LoadRow as FirstLoad;
use rows::qse::QseRow as FirstQse;
use second::book::Book;
use second::figures::QseRow as SecondQse;
use second::load::LoadRow as SecondLoad;
use std::alloc::AllocError;

pub(crate) fn ledger_of(book: &AnyBook) -> Ledger {
    match book {
        AnyBook::Open(open) => open.ledger,
        AnyBook::Struck(struck) => struck.ledger,
    }
}

pub(crate) fn compare_rows(
    seed: u64,
    ledger: &Ledger,
    desk: &Desk,
    second: &Book,
    tally: &mut Tally,
) -> Result<(), AllocError> {
    if !are_counts_same(ledger, second) {
        tally.differ(format_args!("seed {seed} at the end: counts of rows or claims"))?;
    }
    let qses = front(desk.qses.as_slice(), ledger.counts.qses);
    for (one, other) in qses.iter().zip(second.qses.iter()) {
        compare_qse(seed, one, other, tally)?;
    }
    let loads = front(desk.loads.as_slice(), ledger.counts.loads);
    for (one, other) in loads.iter().zip(second.loads.iter()) {
        compare_load(seed, one, other, tally)?;
    }
    Ok(())
}

fn compare_qse(
    seed: u64,
    one: &FirstQse,
    other: &SecondQse,
    tally: &mut Tally,
) -> Result<(), AllocError> {
    tally.count_cents();
    let is_same = i64::from(one.number) == other.number
        && i64::from(one.shortfall) == other.shortfall
        && i128::from(one.cents) == i128::from(other.cents);
    if is_same {
        return Ok(());
    }
    tally.differ(format_args!(
        "seed {seed} at the end: first qse {} shortfall {} cents {}; second qse {} shortfall {} cents {}",
        one.number, one.shortfall, one.cents, other.number, other.shortfall, other.cents
    ))
}

fn compare_load(
    seed: u64,
    one: &FirstLoad,
    other: &SecondLoad,
    tally: &mut Tally,
) -> Result<(), AllocError> {
    tally.count_cents();
    let is_same = i64::from(one.qse) == other.qse
        && i64::from(one.kwh) == other.kwh
        && i128::from(one.cents) == i128::from(other.cents);
    if is_same {
        return Ok(());
    }
    tally.differ(format_args!(
        "seed {seed} at the end: first load {} {} cents {}; second load {} {} cents {}",
        one.qse, one.kwh, one.cents, other.qse, other.kwh, other.cents
    ))
}

fn are_counts_same(ledger: &Ledger, second: &Book) -> bool {
    ledger.counts.qses == second.qses.len()
        && ledger.counts.loads == second.loads.len()
        && ledger.counts.resources == second.resource_count()
        && ledger.counts.trades == second.trade_count()
        && i64::from(ledger.made) == second.made
        && i64::from(ledger.outstanding) == second.outstanding
}
