// Resource rows entered.
ghost use Rattle.book.specs.State.{state_of, open_book};
ghost use Rattle.book.specs.Entries.{Supplies};

use super::append::append;
use super::books::OpenBook;
use super::judge::{is_broken, is_enrolled};
use entry::resource::resource_row;
use rows::fault::Fault;
use rows::limits::MAX_ROWS;
use rows::load::LoadRow;
use rows::qse::QseRow;
use rows::resource::ResourceRow;
use rows::trade::TradeRow;

impl OpenBook {
    // A resource more, at the end of its table; the steps are those of `load`.
    pub fn resource(
        &mut self,
        qses: &[QseRow],
        loads: &[LoadRow],
        resources: &mut [ResourceRow],
        trades: &[TradeRow],
        list: &[i64],
    ) -> Result<(), Fault>
        ensures { Supplies list.now (state_of (open_book self.old) qses.now loads.now resources.old trades.now) (state_of (open_book self.new) qses.now loads.now resources.new trades.now) result }
    {
        if is_broken(self.ledger.counts, qses, loads, resources, trades) {
            return Err(Fault::BrokenTable);
        }
        let row = resource_row(list)?;
        if !is_enrolled(&qses[0..self.ledger.counts.qses], row.qse) {
            return Err(Fault::NotEnrolled);
        }
        self.ledger.counts.resources = append(
            resources,
            self.ledger.counts.resources,
            MAX_ROWS,
            row,
        )?;
        Ok(())
    }
}
