// The first book under the calls that the second has answered.
ghost use Rattle.std.specs.Prelude.{◌≡◌, ℕ};
ghost use Rattle.book.specs.Entries.{new_book};
ghost use Rattle.book.specs.State.{open_book};
ghost use Rattle.replay.specs.Guarantee.{claims_in};
ghost use Rattle.replay.specs.Runs.{any_book};
ghost use Rattle.compare.specs.Kept.{Kept};

use super::desk::{Desk, front};
use super::script::Expected;
use book::books::{Claim, OpenBook};
use edition::places::editions;
use replay::calls::{AnyBook, Entry};
use replay::run::replay;

// Calls up to one that writes a cover, which is looked at before the next is written.
#[derive(Drop)]
pub(crate) struct Piece<'a> {
    pub(crate) calls: Vec<Entry<'a>>,
    pub(crate) expected: Option<&'a Expected>,
    pub(crate) is_good: bool,
}

// The whole list on a book just opened.
pub(crate) fn play_list(
    book: OpenBook,
    desk: &mut Desk,
    purse: &mut Vec<Option<Claim>>,
    pieces: &mut [Piece],
    covers_before: &mut [[u32; 14]],
) -> AnyBook
    requires opened { open_book book ≡ new_book book.ledger.number }
    requires empty { claims_in purse.old.items ≡ 0 }
    ensures { Kept (any_book result) desk.new purse.new.items }
{
    play_all(AnyBook::Open(book), desk, purse, pieces, covers_before)
}

// The cover table is kept in `covers_before` as it was before each piece.
fn play_all(
    book: AnyBook,
    desk: &mut Desk,
    purse: &mut Vec<Option<Claim>>,
    pieces: &mut [Piece],
    covers_before: &mut [[u32; 14]],
) -> AnyBook
    requires { Kept (any_book book) desk.old purse.old.items }
    ensures { Kept (any_book result) desk.new purse.new.items }
{
    let mut current = book;
    for piece in pieces.iter_mut() {
        current = play(current, desk, purse, piece.calls.as_mut_slice());
        piece.is_good = is_good(piece.expected, covers_before, desk.covers.as_slice());
        remember(covers_before, desk.covers.as_slice());
    }
    current
}

// A struck book has no piece before it that ends with a cover, unless the two books differ.
fn play(
    book: AnyBook,
    desk: &mut Desk,
    purse: &mut Vec<Option<Claim>>,
    calls: &mut [Entry],
) -> AnyBook
    requires { Kept (any_book book) desk.old purse.old.items }
    ensures { Kept (any_book result) desk.new purse.new.items }
{
    match book {
        AnyBook::Struck(struck) => AnyBook::Struck(struck),
        AnyBook::Open(open) => play_open(open, desk, purse, calls),
    }
}

fn play_open(
    book: OpenBook,
    desk: &mut Desk,
    purse: &mut Vec<Option<Claim>>,
    calls: &mut [Entry],
) -> AnyBook
    requires { Kept (open_book book) desk.old purse.old.items }
    ensures { Kept (any_book result) desk.new purse.new.items }
{
    replay(
        book,
        &editions(),
        desk.qses.as_mut_slice(),
        desk.loads.as_mut_slice(),
        desk.resources.as_mut_slice(),
        desk.trades.as_mut_slice(),
        desk.covers.as_mut_slice(),
        purse.as_mut_slice(),
        calls,
    )
}

// The cover leaves what was answered, and the rows after it are as they were.
fn is_good(expected: Option<&Expected>, before: &[[u32; 14]], written: &[[u32; 14]]) -> bool {
    let Some(expected) = expected else {
        return before == written;
    };
    let lines = expected.account.line_count();
    let left = expected.account.left_by(front(written, lines));
    left == Some(expected.left) && before.get(lines..) == written.get(lines..)
}

fn remember(before: &mut [[u32; 14]], written: &[[u32; 14]]) {
    for (row, now) in before.iter_mut().zip(written.iter()) {
        *row = *now;
    }
}
