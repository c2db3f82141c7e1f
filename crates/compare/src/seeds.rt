// A seed from its first draw to the last claim handed back.
ghost use Rattle.std.specs.Prelude.{◌≡◌, IfOk, IfSome, ℕ};
ghost use Rattle.book.specs.Entries.{new_book};
ghost use Rattle.book.specs.State.{open_book};

use super::chooser::Chooser;
use super::closing::{compare_rows, ledger_of};
use super::desk::Desk;
use super::ends::compare_ends;
use super::foreign::compare_foreign;
use super::play::{Piece, play_list};
use super::purse::{close_purse, empty_purse};
use super::scene::Scene;
use super::script::{Asked, pieces_of, write_script};
use super::tally::Tally;
use book::books::OpenBook;
use replay::calls::Answer as FirstAnswer;
use second::book::{Book, open_answer};
use std::alloc::{AllocError, Global};

pub(crate) fn compare_seed(heap: Global, seed: u64, tally: &mut Tally) -> Result<(), AllocError> {
    let mut chooser = Chooser::new(heap, seed);
    let scene = Scene::new(seed, &mut chooser);
    let _ = open_both(seed, chooser.dice.bad_number(), tally)?;
    let _ = open_both(seed, chooser.dice.number(4_294_967_295, 1), tally)?;
    let Some(open) = open_both(seed, scene.number, tally)? else {
        return Ok(());
    };
    let slips = vec![in heap; None; scene.purse]?;
    let mut second = Book::new(heap, scene.number, slips);
    let script = write_script(&scene, &mut chooser, &mut second)?;
    let mut desk = Desk::new(heap, scene.lent)?;
    let mut pieces = pieces_of(heap, script.as_slice())?;
    let mut covers_before = desk.covers.clone()?;
    let mut purse = empty_purse(heap, scene.purse)?;
    let book = play_list(
        open,
        &mut desk,
        &mut purse,
        pieces.as_mut_slice(),
        covers_before.as_mut_slice(),
    );
    let ledger = ledger_of(&book);
    let book = close_purse(purse, book, &desk);
    compare_answers(seed, script.as_slice(), pieces.as_slice(), tally)?;
    compare_rows(seed, &ledger, &desk, &second, tally)?;
    compare_foreign(heap, seed, scene.number, tally)?;
    compare_ends(seed, book, desk, second, scene.lent, &mut chooser, tally)
}

fn open_both(seed: u64, number: i64, tally: &mut Tally) -> Result<Option<OpenBook>, AllocError>
    ensures { IfOk result (λ o. IfSome o (λ b. open_book b ≡ new_book b.ledger.number)) }
{
    let (answer, open) = match OpenBook::open(number) {
        Ok(open) => (FirstAnswer::Granted, Some(open)),
        Err(fault) => (FirstAnswer::Refused(fault), None),
    };
    tally.answers(seed, 0, answer, open_answer(number))?;
    Ok(open)
}

fn compare_answers(
    seed: u64,
    script: &[Asked],
    pieces: &[Piece],
    tally: &mut Tally,
) -> Result<(), AllocError> {
    let mut asked = script.iter();
    let mut call: usize = 0;
    for piece in pieces {
        for entry in &piece.calls {
            call = call.saturating_add(1);
            if let Some(asked) = asked.next() {
                tally.answers(seed, call, entry.answer, asked.answer)?;
            }
        }
        if piece.expected.is_some() {
            tally.count_cover();
        }
        if !piece.is_good {
            tally.differ(format_args!("seed {seed} call {call}: the cover table"))?;
        }
    }
    Ok(())
}
