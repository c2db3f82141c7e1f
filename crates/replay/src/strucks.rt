// Calls on a struck book.
ghost use Rattle.std.specs.Prelude.{◌≡◌, ℕ, ◌⊎◌, List, None, Option as Maybe};
ghost use Rattle.book.specs.declared.books.Claim.{Claim as Slip};
ghost use Rattle.book.specs.State.{struck_book};
ghost use Rattle.replay.specs.Runs.{OnStruck, any_book, desk_of};

use super::answers::answered;
use super::calls::{Answer, AnyBook, Call};
use super::purse::{is_free, put_claim, take_claim};
use book::books::{Claim, StruckBook};
use rows::load::LoadRow;
use rows::qse::QseRow;
use rows::resource::ResourceRow;
use rows::trade::TradeRow;

// A claim made; it goes to the place that is the number of claims made before it.
fn claim_next(
    book: &mut StruckBook,
    qses: &[QseRow],
    loads: &[LoadRow],
    resources: &[ResourceRow],
    trades: &[TradeRow],
    purse: &mut [Option<Claim>],
    cents: i64,
    rate: i64,
) -> Answer
    ensures { (cs : List (List ℕ)) → OnStruck (Call.Claim cents rate) (desk_of (struck_book book.old) qses.now loads.now resources.now trades.now cs purse.old) (desk_of (struck_book book.new) qses.now loads.now resources.now trades.now cs purse.new) result }
{
    let place = usize::from(book.ledger.made);
    if !is_free(purse, place) {
        return Answer::NotAllowed;
    }
    match book.claim(qses, loads, resources, trades, cents, rate) {
        Ok(claim) => {
            put_claim(purse, place, claim);
            Answer::Claimed(place)
        }
        Err(fault) => Answer::Refused(fault),
    }
}

// Charging, below, goes the same way with other tables and another answer; a common step would be handed all of it.
//
// The claim at a place of the purse handed back; a refused one goes back to its place.
fn hand_back_at(
    book: &mut StruckBook,
    qses: &[QseRow],
    loads: &[LoadRow],
    resources: &[ResourceRow],
    trades: &[TradeRow],
    purse: &mut [Option<Claim>],
    place: usize,
) -> Answer
    ensures { (cs : List (List ℕ)) → OnStruck (Call.HandBack place) (desk_of (struck_book book.old) qses.now loads.now resources.now trades.now cs purse.old) (desk_of (struck_book book.new) qses.now loads.now resources.now trades.now cs purse.new) result }
{
    match take_claim(purse, place) {
        None => Answer::NotAllowed,
        Some(claim) => match book.hand_back(qses, loads, resources, trades, claim) {
            Ok(()) => Answer::Granted,
            Err((back, fault)) => {
                put_claim(purse, place, back);
                Answer::Refused(fault)
            }
        },
    }
}

// The claim at a place of the purse charged; a refused one goes back to its place.
fn charge_at(
    book: &mut StruckBook,
    qses: &mut [QseRow],
    loads: &mut [LoadRow],
    resources: &[ResourceRow],
    trades: &[TradeRow],
    purse: &mut [Option<Claim>],
    place: usize,
) -> Answer
    ensures { (cs : List (List ℕ)) → OnStruck (Call.Charge place) (desk_of (struck_book book.old) qses.old loads.old resources.now trades.now cs purse.old) (desk_of (struck_book book.new) qses.new loads.new resources.now trades.now cs purse.new) result }
{
    match take_claim(purse, place) {
        None => Answer::NotAllowed,
        Some(claim) => match book.charge(qses, loads, resources, trades, claim) {
            Ok((pot, rest)) => { Answer::Charged(pot, rest) }
            Err((back, fault)) => {
                put_claim(purse, place, back);
                Answer::Refused(fault)
            }
        },
    }
}

fn reopen_struck(
    book: StruckBook,
    qses: &[QseRow],
    loads: &[LoadRow],
    resources: &[ResourceRow],
    trades: &[TradeRow],
) -> (AnyBook, Answer)
    ensures { (cs : List (List ℕ)) (p : List (Maybe Slip)) → OnStruck Call.Reopen (desk_of (struck_book book) qses.now loads.now resources.now trades.now cs p) (desk_of (any_book result.0) qses.now loads.now resources.now trades.now cs p) result.1 }
{
    match book.reopen(qses, loads, resources, trades) {
        Ok(open) => (AnyBook::Open(open), Answer::Granted),
        Err((struck, fault)) => { (AnyBook::Struck(struck), Answer::Refused(fault)) }
    }
}

// One call on a struck book.
pub(crate) fn on_struck(
    call: Call,
    mut book: StruckBook,
    qses: &mut [QseRow],
    loads: &mut [LoadRow],
    resources: &[ResourceRow],
    trades: &[TradeRow],
    purse: &mut [Option<Claim>],
) -> (AnyBook, Answer)
    ensures { (cs : List (List ℕ)) → OnStruck call.entry (desk_of (struck_book book) qses.old loads.old resources.now trades.now cs purse.old) (desk_of (any_book result.0) qses.new loads.new resources.now trades.now cs purse.new) result.1 }
{
    let answer = match call {
        Call::Share(qse) => answered(
            book.share(qses, loads, resources, trades, qse),
            Answer::Shared,
        ),
        Call::Claim(cents, rate) => claim_next(
            &mut book, qses, loads, resources, trades, purse, cents, rate,
        ),
        Call::Charge(place) => charge_at(&mut book, qses, loads, resources, trades, purse, place),
        Call::HandBack(place) => hand_back_at(
            &mut book, qses, loads, resources, trades, purse, place,
        ),
        Call::Reopen => return reopen_struck(book, qses, loads, resources, trades),
        Call::Figures(_) => Answer::NotAllowed,
        Call::Load(_) => Answer::NotAllowed,
        Call::Resource(_) => Answer::NotAllowed,
        Call::Trade(_) => Answer::NotAllowed,
        Call::Enrol(_) => Answer::NotAllowed,
        Call::Void(_) => Answer::NotAllowed,
        Call::Short(_, _) => Answer::NotAllowed,
        Call::Cover(_, _) => Answer::NotAllowed,
        Call::Strike(_) => Answer::NotAllowed,
    };
    (AnyBook::Struck(book), answer)
}
