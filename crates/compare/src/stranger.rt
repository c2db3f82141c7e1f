// A claim of another book, which takes it back in the end.
ghost use Rattle.std.specs.Prelude.{◌≡◌, ◌≢◌, ℕ, ◌<◌};
ghost use Rattle.book.specs.State.{struck_book};

use super::desk::{Desk, front, front_mut};
use book::books::{Claim, OpenBook, StruckBook};
use edition::edition::Edition;
use replay::calls::Answer;
use rows::fault::Fault;
use second::book::{Lent, Slip};

const CENTS: i64 = 1_000;

const RATE: i64 = 500;

pub(crate) struct Stranger {
    other: StruckBook,
    claim: Claim,
    ghost own: { claim.book ≡ other.ledger.number },
    ghost some: { 0 < other.ledger.outstanding },
    ghost rowless: { (other.ledger.counts.qses ≡ 0) × (other.ledger.counts.loads ≡ 0) × (other.ledger.counts.resources ≡ 0) × (other.ledger.counts.trades ≡ 0) },
}

// The same claim for the second book.
pub(crate) fn slip_of(number: i64) -> Slip {
    Slip {
        book: number,
        cents: CENTS,
        rate: RATE,
    }
}

impl Stranger {
    pub(crate) fn new(number: i64) -> Option<Stranger> {
        let open = OpenBook::open(number).ok()?;
        match open.strike(&Edition::Grouped, &mut [], &[], &[], &[]) {
            Err(_) => None,
            Ok((mut other, _)) => match other.claim(&[], &[], &[], &[], CENTS, RATE) {
                Err(_) => None,
                Ok(claim) => Some(Stranger { other, claim }),
            },
        }
    }

    // What a book answers that is to charge the claim.
    pub(crate) fn charged(self, struck: &mut StruckBook, desk: &mut Desk, lent: Lent) -> Answer {
        let Stranger { other, claim } = self;
        match struck.charge(
            front_mut(desk.qses.as_mut_slice(), lent.qses),
            front_mut(desk.loads.as_mut_slice(), lent.loads),
            front(desk.resources.as_slice(), lent.resources),
            front(desk.trades.as_slice(), lent.trades),
            claim,
        ) {
            Ok((pot, rest)) => Answer::Charged(pot, rest),
            Err((claim, fault)) => {
                Stranger { other, claim }.end();
                Answer::Refused(fault)
            }
        }
    }

    // What a book answers that is to take the claim back.
    pub(crate) fn handed_back(self, struck: &mut StruckBook, desk: &Desk, lent: Lent) -> Answer {
        let Stranger { other, claim } = self;
        match struck.hand_back(
            front(desk.qses.as_slice(), lent.qses),
            front(desk.loads.as_slice(), lent.loads),
            front(desk.resources.as_slice(), lent.resources),
            front(desk.trades.as_slice(), lent.trades),
            claim,
        ) {
            Ok(()) => Answer::Granted,
            Err((claim, fault)) => {
                Stranger { other, claim }.end();
                Answer::Refused(fault)
            }
        }
    }

    // What this claim's book, which has it outstanding, answers to the claim of another.
    pub(crate) fn meets(self, there: Stranger) -> Option<Meeting> {
        let Stranger {
            other: mut book,
            claim: own,
        } = self;
        let Stranger { other, claim } = there;
        if claim.book == book.ledger.number {
            Stranger {
                other: book,
                claim: own,
            }
            .end();
            Stranger { other, claim }.end();
            return None;
        }
        let (claim, handed_back) = hand_foreign(&mut book, claim);
        let (claim, charged) = charge_foreign(&mut book, claim);
        Stranger {
            other: book,
            claim: own,
        }
        .end();
        Stranger { other, claim }.end();
        Some(Meeting {
            handed_back,
            charged,
        })
    }

    pub(crate) fn end(self) {
        let Stranger { mut other, claim } = self;
        match other.hand_back(&[], &[], &[], &[], claim) {
            Ok(()) => {}
            Err(_) => unreachable(),
        }
    }
}

// The refusals of a claim of another book.
#[derive(Clone, Copy)]
pub(crate) struct Meeting {
    pub(crate) handed_back: Fault,
    pub(crate) charged: Fault,
}

fn hand_foreign(book: &mut StruckBook, claim: Claim) -> (Claim, Fault)
    requires foreign { claim.book ≢ book.old.ledger.number }
    ensures claim { result.0 ≡ claim }
    ensures same { struck_book book.new ≡ struck_book book.old }
{
    match book.hand_back(&[], &[], &[], &[], claim) {
        Ok(()) => unreachable(),
        Err(refused) => refused,
    }
}

fn charge_foreign(book: &mut StruckBook, claim: Claim) -> (Claim, Fault)
    requires foreign { claim.book ≢ book.old.ledger.number }
    ensures claim { result.0 ≡ claim }
    ensures same { struck_book book.new ≡ struck_book book.old }
{
    match book.charge(&mut [], &mut [], &[], &[], claim) {
        Ok(_) => unreachable(),
        Err(refused) => refused,
    }
}
