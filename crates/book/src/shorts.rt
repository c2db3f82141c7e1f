// The shortfall of one QSE of the book.
ghost use Rattle.book.specs.State.{state_of, open_book};
ghost use Rattle.book.specs.Measuring.{Shorts};

use super::books::OpenBook;
use super::judge::{is_broken, place_of};
use super::reads::{qse_number, tables_of};
use measure::measure::Measure;
use rows::fault::Fault;
use rows::load::LoadRow;
use rows::qse::QseRow;
use rows::resource::ResourceRow;
use rows::trade::TradeRow;
use shortfall::short::short_of;

impl OpenBook {
    // By the QSE's own rows and the figures in its earliest row.
    pub fn short<'a, M: Measure>(
        &self,
        m: &M,
        qses: &'a [QseRow],
        loads: &'a [LoadRow],
        resources: &'a [ResourceRow],
        trades: &'a [TradeRow],
        qse: i64,
    ) -> Result<u64, Fault>
        ensures { Shorts (M.meaning m.now) qse (state_of (open_book self.now) qses.now loads.now resources.now trades.now) result }
    {
        if is_broken(self.ledger.counts, qses, loads, resources, trades) {
            return Err(Fault::BrokenTable);
        }
        let number = qse_number(qse)?;
        let Some(place) = place_of(&qses[0..self.ledger.counts.qses], number) else {
            return Err(Fault::NotEnrolled);
        };
        let tables = tables_of(self.ledger.counts, loads, resources, trades);
        Ok(short_of(m, &qses[place], tables))
    }
}
