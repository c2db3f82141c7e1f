// An open book with a QSE in two rows, as no call writes it: a call that names the QSE goes by the earlier row, and a
// strike takes each with its own figures.
use super::asks::Ask;
use super::chooser::Chooser;
use super::closing::{compare_rows, ledger_of};
use super::desk::Desk;
use super::ends::{entries, replay_cut};
use super::lists::figures_list;
use super::script::{Asked, answered};
use super::tally::Tally;
use book::books::OpenBook;
use second::book::{Book, Lent};
use std::alloc::AllocError;

pub(crate) fn compare_doubled(
    seed: u64,
    open: OpenBook,
    desk: Desk,
    second: Book,
    lent: Lent,
    chooser: &mut Chooser,
    tally: &mut Tally,
) -> Result<(), AllocError> {
    let (mut desk, mut second) = (desk, second);
    let Some(qse) = double_first(&mut desk, &mut second) else {
        return Ok(());
    };
    let script = doubled_script(qse, &mut second, lent, chooser)?;
    let mut calls = entries(script.as_slice(), chooser)?;
    let book = replay_cut(open, &mut desk, lent, calls.as_mut_slice());
    for (entry, asked) in calls.iter().zip(script.iter()) {
        tally.answers(seed, 0, entry.answer, asked.answer)?;
    }
    compare_rows(seed, &ledger_of(&book), &desk, &second, tally)
}

// The QSE of the first row stands in the second too.
fn double_first(desk: &mut Desk, second: &mut Book) -> Option<i64> {
    if second.qses.len() < 2 {
        return None;
    }
    let number = desk.qses.get(0)?.number;
    let one = desk.qses.get_mut(1)?;
    let other = second.qses.get_mut(1)?;
    one.number = number;
    other.number = i64::from(number);
    Some(i64::from(number))
}

fn doubled_script(
    qse: i64,
    second: &mut Book,
    lent: Lent,
    chooser: &mut Chooser,
) -> Result<Vec<Asked>, AllocError> {
    let list = figures_list(chooser.heap, &mut chooser.dice, qse)?;
    let mut script = Vec::new(chooser.heap);
    for ask in [
        Ask::Enrol(qse),
        Ask::Short(0, qse),
        Ask::Short(1, qse),
        Ask::Figures(list),
        Ask::Short(2, qse),
        Ask::Cover(qse, 1),
        Ask::Cover(qse, 2),
        Ask::Strike(chooser.dice.length(2)),
        Ask::Share(qse),
    ] {
        script.push(answered(ask, second, lent)?)?;
    }
    Ok(script)
}
