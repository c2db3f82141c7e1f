// After a list: calls with tables cut shorter than their counts, and claims of other books.
use super::chooser::Chooser;
use super::desk::{Desk, front_mut};
use super::doubled::compare_doubled;
use super::script::{Asked, answered};
use super::struck_end::StruckEnd;
use super::tally::Tally;
use book::books::{Claim, OpenBook};
use edition::places::editions;
use replay::calls::{Answer, AnyBook, Entry};
use replay::run::replay;
use second::book::{Book, Lent};
use std::alloc::AllocError;

// What is asked of an open book with a cut table.
const CUT_CALLS: usize = 4;

pub(crate) fn compare_ends(
    seed: u64,
    book: AnyBook,
    desk: Desk,
    second: Book,
    lent: Lent,
    chooser: &mut Chooser,
    tally: &mut Tally,
) -> Result<(), AllocError> {
    match book {
        AnyBook::Open(open) => compare_open(seed, open, desk, second, lent, chooser, tally),
        AnyBook::Struck(struck) => StruckEnd {
            heap: chooser.heap,
            seed,
            struck,
            desk,
            second,
            lent,
        }
        .compare(chooser.qse(), tally),
    }
}

// The lengths with one of the four tables a row shorter than its count, or nothing where it has no row.
pub(crate) fn cut(lent: Lent, second: &Book, table: usize) -> Option<Lent> {
    let mut cut = lent;
    match table {
        0 => cut.qses = second.qses.len().checked_sub(1)?,
        1 => cut.loads = second.loads.len().checked_sub(1)?,
        2 => cut.resources = second.resource_count().checked_sub(1)?,
        _ => cut.trades = second.trade_count().checked_sub(1)?,
    }
    Some(cut)
}

fn compare_open(
    seed: u64,
    open: OpenBook,
    desk: Desk,
    second: Book,
    lent: Lent,
    chooser: &mut Chooser,
    tally: &mut Tally,
) -> Result<(), AllocError> {
    let (mut desk, mut second, mut open) = (desk, second, open);
    for table in 0..4 {
        if let Some(cut) = cut(lent, &second, table) {
            let script = cut_script(&mut second, cut, chooser)?;
            let mut calls = entries(script.as_slice(), chooser)?;
            let book = replay_cut(open, &mut desk, cut, calls.as_mut_slice());
            for (entry, asked) in calls.iter().zip(script.iter()) {
                tally.answers(seed, 0, entry.answer, asked.answer)?;
            }
            match book {
                AnyBook::Open(next) => open = next,
                AnyBook::Struck(_) => {
                    return tally.differ(format_args!("seed {seed}: struck with a table cut"));
                }
            }
        }
    }
    compare_doubled(seed, open, desk, second, lent, chooser, tally)
}

fn cut_script(
    second: &mut Book,
    cut: Lent,
    chooser: &mut Chooser,
) -> Result<Vec<Asked>, AllocError> {
    let mut script = Vec::new(chooser.heap);
    for _ in 0..CUT_CALLS {
        let ask = chooser.open_call(second)?;
        script.push(answered(ask, second, cut)?)?;
    }
    Ok(script)
}

pub(crate) fn entries<'a>(
    script: &'a [Asked],
    chooser: &Chooser,
) -> Result<Vec<Entry<'a>>, AllocError> {
    let mut entries = Vec::new(chooser.heap);
    for asked in script {
        entries.push(Entry {
            call: asked.ask.first(),
            answer: Answer::NotAllowed,
        })?;
    }
    Ok(entries)
}

// Calls with the first rows of each table, and with no purse.
pub(crate) fn replay_cut(
    open: OpenBook,
    desk: &mut Desk,
    cut: Lent,
    calls: &mut [Entry],
) -> AnyBook {
    let mut purse: [Option<Claim>; 0] = [];
    let book = replay(
        open,
        &editions(),
        front_mut(desk.qses.as_mut_slice(), cut.qses),
        front_mut(desk.loads.as_mut_slice(), cut.loads),
        front_mut(desk.resources.as_mut_slice(), cut.resources),
        front_mut(desk.trades.as_mut_slice(), cut.trades),
        desk.covers.as_mut_slice(),
        &mut purse,
        calls,
    );
    let [] = purse;
    book
}
