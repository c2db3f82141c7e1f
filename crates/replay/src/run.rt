// A list of calls on one book.
ghost use Rattle.std.specs.Prelude.{◌≡◌, map};
ghost use Rattle.book.specs.State.{open_book};
ghost use Rattle.replay.specs.Runs.{Step, Run, any_book, desk_of};
ghost use Rattle.replay.specs.Guarantee.{Guarantee};

use super::calls::{Answer, AnyBook, Call, Entry};
use super::opens::on_open;
use super::strucks::on_struck;
use book::books::{Claim, OpenBook};
use measure::measure::Measure;
use rows::load::LoadRow;
use rows::qse::QseRow;
use rows::resource::ResourceRow;
use rows::trade::TradeRow;

// One call, by the state of the book. The tables stay apart, as they do for the calls of the book itself.
fn apply<M: Measure>(
    call: Call,
    measures: &[M],
    book: AnyBook,
    qses: &mut [QseRow],
    loads: &mut [LoadRow],
    resources: &mut [ResourceRow],
    trades: &mut [TradeRow],
    covers: &mut [[u32; 14]],
    purse: &mut [Option<Claim>],
) -> (AnyBook, Answer)
    ensures { Step (map M.meaning measures.now) call.entry (desk_of (any_book book) qses.old loads.old resources.old trades.old covers.old purse.old) (desk_of (any_book result.0) qses.new loads.new resources.new trades.new covers.new purse.new) result.1 }
{
    match book {
        AnyBook::Open(open) => on_open(
            call, measures, open, qses, loads, resources, trades, covers,
        ),
        AnyBook::Struck(struck) => on_struck(call, struck, qses, loads, resources, trades, purse),
    }
}

// Makes every call of the list in order and writes each answer beside its call. Whatever the list: what the
// guarantee says holds after it, if the book was just opened.
pub fn replay<'a, M: Measure>(
    book: OpenBook,
    measures: &[M],
    qses: &mut [QseRow],
    loads: &mut [LoadRow],
    resources: &mut [ResourceRow],
    trades: &mut [TradeRow],
    covers: &mut [[u32; 14]],
    purse: &mut [Option<Claim>],
    journal: &mut [Entry<'a>],
) -> AnyBook
    ensures calls { map (λ e. e.call) journal.new ≡ map (λ e. e.call) journal.old }
    ensures run { Run (map M.meaning measures.now) (desk_of (open_book book) qses.old loads.old resources.old trades.old covers.old purse.old) journal.new (desk_of (any_book result) qses.new loads.new resources.new trades.new covers.new purse.new) }
    ensures guarantee { Guarantee (map M.meaning measures.now) }
{
    let mut current = AnyBook::Open(book);
    for entry in journal.iter_mut() {
        let (next, answer) = apply(
            entry.call, measures, current, qses, loads, resources, trades, covers, purse,
        );
        current = next;
        entry.answer = answer;
    }
    current
}
