// The claims that a journal holds, each at its place.
ghost use Rattle.std.specs.Prelude.{◌≡◌, ℕ, ◌-◌, ◌<◌, IfOk};
ghost use Rattle.book.specs.State.{struck_book, with_claims};
ghost use Rattle.replay.specs.Guarantee.{claims_in, Long};
ghost use Rattle.replay.specs.Runs.{any_book};
ghost use Rattle.shadow.specs.Kept.{Kept, state_at};

use super::desk::Desk;
use book::books::{Claim, StruckBook};
use replay::calls::AnyBook;
use std::alloc::{AllocError, Global};

// One more than a book makes, so that the book itself refuses the claim after its last.
const PLACES: usize = 1001;

// Place by place: `vec!` of a value wants copies of it, and a claim has none.
#[tactic(auto, using(replay::proofs::Emptied::empty_push))]
pub(crate) fn empty_purse(heap: Global) -> Result<Vec<Option<Claim>>, AllocError>
    ensures { IfOk result (λ p. claims_in p.items ≡ 0) }
{
    let mut purse = Vec::with_capacity(heap, PLACES)?;
    for _place in 0..PLACES {
        purse.push_reserved(None);
    }
    Ok(purse)
}

// Claims that are left go back to their book, since a claim is let go only once it is spent.
pub(crate) fn close_purse(purse: Vec<Option<Claim>>, book: AnyBook, desk: &Desk)
    requires { Kept (any_book book) desk.now purse.items }
{
    match book {
        AnyBook::Struck(struck) => hand_all_back(purse, struck, desk),
        // a book is not reopened while a claim is outstanding, so none is left
        AnyBook::Open(_) => end_empty(purse),
    }
}

// Here and below a `for` over the purse was tried: the borrow checker does not cover it, since what is left of the purse
// would be let go. Both empty it by hand, and what each knows of the claims in it differs.
#[tactic(auto, using(replay::proofs::Emptied::empty_front, replay::proofs::Emptied::empty_last))]
fn end_empty(mut purse: Vec<Option<Claim>>)
    requires { claims_in purse.items ≡ 0 }
{
    while let Some(place) = purse.pop() {
        if let Some(_) = place {
            unreachable()
        }
    }
    purse.destroy_empty();
}

#[tactic(auto, using(replay::proofs::Emptied::front_held, replay::proofs::Emptied::last_ours, replay::proofs::Emptied::some_out))]
fn hand_all_back(mut purse: Vec<Option<Claim>>, mut book: StruckBook, desk: &Desk)
    requires { Kept (struck_book book) desk.now purse.items }
{
    while let Some(place) = purse.pop() {
        if let Some(claim) = place {
            hand_back(&mut book, desk, claim);
        }
    }
    purse.destroy_empty();
}

// A book takes back each claim of its own.
fn hand_back(book: &mut StruckBook, desk: &Desk, claim: Claim)
    requires ours { claim.book ≡ book.old.ledger.number }
    requires some { 0 < book.old.ledger.outstanding }
    requires long { Long (state_at (struck_book book.old) desk.now) }
    ensures { struck_book book.new ≡ with_claims (struck_book book.old) book.old.ledger.made (book.old.ledger.outstanding - 1) }
{
    match book.hand_back(
        desk.qses.as_slice(),
        desk.loads.as_slice(),
        desk.resources.as_slice(),
        desk.trades.as_slice(),
        claim,
    ) {
        Ok(()) => {}
        Err(_) => unreachable(),
    }
}
