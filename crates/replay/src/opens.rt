// Calls on an open book.
ghost use Rattle.std.specs.Prelude.{ℕ, List, map, Option as Maybe};
ghost use Rattle.book.specs.State.{open_book};
ghost use Rattle.book.specs.declared.books.Claim.{Claim as Slip};
ghost use Rattle.replay.specs.Runs.{OnOpen, StrikesBook, any_book, desk_of};

use super::answers::answered;
use super::calls::{Answer, AnyBook, Call};
use book::books::OpenBook;
use measure::measure::Measure;
use rows::load::LoadRow;
use rows::qse::QseRow;
use rows::resource::ResourceRow;
use rows::trade::TradeRow;

fn strike_open<M: Measure>(
    m: &M,
    book: OpenBook,
    qses: &mut [QseRow],
    loads: &[LoadRow],
    resources: &[ResourceRow],
    trades: &[TradeRow],
) -> (AnyBook, Answer)
    ensures { (cs : List (List ℕ)) (p : List (Maybe Slip)) → StrikesBook (M.meaning m.now) (desk_of (open_book book) qses.old loads.now resources.now trades.now cs p) (desk_of (any_book result.0) qses.new loads.now resources.now trades.now cs p) result.1 }
{
    match book.strike(m, qses, loads, resources, trades) {
        Ok((struck, total)) => { (AnyBook::Struck(struck), Answer::Total(total)) }
        Err((open, fault)) => { (AnyBook::Open(open), Answer::Refused(fault)) }
    }
}

// One call on an open book.
pub(crate) fn on_open<M: Measure>(
    call: Call,
    measures: &[M],
    mut book: OpenBook,
    qses: &mut [QseRow],
    loads: &mut [LoadRow],
    resources: &mut [ResourceRow],
    trades: &mut [TradeRow],
    covers: &mut [[u32; 14]],
) -> (AnyBook, Answer)
    ensures { (p : List (Maybe Slip)) → OnOpen (map M.meaning measures.now) call.entry (desk_of (open_book book) qses.old loads.old resources.old trades.old covers.old p) (desk_of (any_book result.0) qses.new loads.new resources.new trades.new covers.new p) result.1 }
{
    let answer = match call {
        Call::Figures(list) => answered(
            book.figures(qses, loads, resources, trades, list),
            |()| Answer::Granted,
        ),
        Call::Load(list) => answered(
            book.load(qses, loads, resources, trades, list),
            |()| Answer::Granted,
        ),
        Call::Resource(list) => answered(
            book.resource(qses, loads, resources, trades, list),
            |()| Answer::Granted,
        ),
        Call::Trade(list) => answered(
            book.trade(qses, loads, resources, trades, list),
            Answer::Placed,
        ),
        Call::Enrol(qse) => answered(
            book.enrol(qses, loads, resources, trades, qse),
            |()| Answer::Granted,
        ),
        Call::Void(place) => answered(
            book.void(qses, loads, resources, trades, place),
            |()| Answer::Granted,
        ),
        Call::Short(j, qse) => {
            if j < measures.len() {
                answered(
                    book.short(&measures[j], qses, loads, resources, trades, qse),
                    Answer::Shortfall,
                )
            } else {
                Answer::NotAllowed
            }
        }
        Call::Cover(qse, side) => answered(
            book.cover(qses, loads, resources, trades, covers, qse, side),
            Answer::Uncovered,
        ),
        Call::Strike(j) => {
            if j < measures.len() {
                return strike_open(&measures[j], book, qses, loads, resources, trades);
            }
            Answer::NotAllowed
        }
        Call::Share(_) => Answer::NotAllowed,
        Call::Claim(_, _) => Answer::NotAllowed,
        Call::Charge(_) => Answer::NotAllowed,
        Call::HandBack(_) => Answer::NotAllowed,
        Call::Reopen => Answer::NotAllowed,
    };
    (AnyBook::Open(book), answer)
}
