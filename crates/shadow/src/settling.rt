// The lines after the one that opened the book, by one replay of all their calls.
ghost use Rattle.std.specs.Prelude.{◌≡◌, ℕ};
ghost use Rattle.book.specs.Entries.{new_book};
ghost use Rattle.book.specs.State.{open_book};
ghost use Rattle.replay.specs.Guarantee.{claims_in};
ghost use Rattle.replay.specs.Runs.{any_book};
ghost use Rattle.shadow.specs.Kept.{Kept};

use super::answers::{calls_of, say_answers};
use super::closing::say_closing;
use super::desk::Desk;
use super::opened::Opened;
use super::purse::{close_purse, empty_purse};
use book::books::{Claim, OpenBook};
use edition::places::editions;
use replay::calls::{AnyBook, Entry};
use replay::run::replay;
use std::alloc::{AllocError, Global};

pub(crate) fn settle(heap: Global, opened: Opened, out: &mut String) -> Result<(), AllocError> {
    let lines = opened.rest;
    let mut desk = Desk::new(heap, opened.lengths)?;
    let mut calls = calls_of(heap, lines)?;
    let mut purse = empty_purse(heap)?;
    let book = run_calls(opened.book, &mut desk, &mut purse, calls.as_mut_slice());
    let answered = say_answers(out, lines, calls.as_slice());
    let closed = say_closing(out, &desk, &book);
    close_purse(purse, book, &desk);
    answered?;
    closed
}

// The guarantee says that no claim is lost: those in the purse are the book's that are outstanding.
fn run_calls(
    book: OpenBook,
    desk: &mut Desk,
    purse: &mut Vec<Option<Claim>>,
    calls: &mut [Entry],
) -> AnyBook
    requires opened { open_book book ≡ new_book book.ledger.number }
    requires empty { claims_in purse.old.items ≡ 0 }
    ensures { Kept (any_book result) desk.new purse.new.items }
{
    replay(
        book,
        &editions(),
        desk.qses.as_mut_slice(),
        desk.loads.as_mut_slice(),
        desk.resources.as_mut_slice(),
        desk.trades.as_mut_slice(),
        desk.covers.as_mut_slice(),
        purse.as_mut_slice(),
        calls,
    )
}
