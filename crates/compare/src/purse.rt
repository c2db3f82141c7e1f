// The claims of the first book, each at its place.
ghost use Rattle.std.specs.Prelude.{◌≡◌, ℕ, ◌-◌, ◌<◌, IfOk};
ghost use Rattle.book.specs.State.{struck_book, with_claims};
ghost use Rattle.replay.specs.Guarantee.{claims_in, Long};
ghost use Rattle.replay.specs.Runs.{any_book};
ghost use Rattle.compare.specs.Kept.{Kept, state_at};

use super::desk::Desk;
use book::books::{Claim, StruckBook};
use replay::calls::AnyBook;
use std::alloc::{AllocError, Global};

#[tactic(auto, using(replay::proofs::Emptied::empty_push))]
pub(crate) fn empty_purse(heap: Global, places: usize) -> Result<Vec<Option<Claim>>, AllocError>
    ensures { IfOk result (λ p. claims_in p.items ≡ 0) }
{
    let mut purse = Vec::with_capacity(heap, places)?;
    for _place in 0..places {
        purse.push_reserved(None);
    }
    Ok(purse)
}

// Claims that are left go back to their book, since a claim is let go only once it is spent.
pub(crate) fn close_purse(purse: Vec<Option<Claim>>, book: AnyBook, desk: &Desk) -> AnyBook
    requires { Kept (any_book book) desk.now purse.items }
{
    match book {
        AnyBook::Struck(struck) => AnyBook::Struck(hand_all_back(purse, struck, desk)),
        // a book is not reopened while a claim is outstanding, so none is left
        AnyBook::Open(open) => {
            end_empty(purse);
            AnyBook::Open(open)
        }
    }
}

#[tactic(auto, using(replay::proofs::Emptied::empty_front, replay::proofs::Emptied::empty_last))]
fn end_empty(mut purse: Vec<Option<Claim>>)
    requires { claims_in purse.items ≡ 0 }
{
    while let Some(place) = purse.pop() {
        if let Some(_) = place {
            unreachable()
        }
    }
    purse.destroy_empty();
}

#[tactic(auto, using(replay::proofs::Emptied::front_held, replay::proofs::Emptied::last_ours, replay::proofs::Emptied::some_out))]
fn hand_all_back(mut purse: Vec<Option<Claim>>, mut book: StruckBook, desk: &Desk) -> StruckBook
    requires { Kept (struck_book book) desk.now purse.items }
{
    while let Some(place) = purse.pop() {
        if let Some(claim) = place {
            hand_back(&mut book, desk, claim);
        }
    }
    purse.destroy_empty();
    book
}

// A book takes back each claim of its own.
pub(crate) fn hand_back(book: &mut StruckBook, desk: &Desk, claim: Claim)
    requires ours { claim.book ≡ book.old.ledger.number }
    requires some { 0 < book.old.ledger.outstanding }
    requires long { Long (state_at (struck_book book.old) desk.now) }
    ensures { struck_book book.new ≡ with_claims (struck_book book.old) book.old.ledger.made (book.old.ledger.outstanding - 1) }
{
    match book.hand_back(
        desk.qses.as_slice(),
        desk.loads.as_slice(),
        desk.resources.as_slice(),
        desk.trades.as_slice(),
        claim,
    ) {
        Ok(()) => {}
        Err(_) => unreachable(),
    }
}
