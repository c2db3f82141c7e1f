// Load rows entered.
ghost use Rattle.book.specs.State.{state_of, open_book};
ghost use Rattle.book.specs.Entries.{Loads};

use super::append::append;
use super::books::OpenBook;
use super::judge::{is_broken, is_enrolled};
use entry::load::load_row;
use rows::fault::Fault;
use rows::limits::MAX_ROWS;
use rows::load::LoadRow;
use rows::qse::QseRow;
use rows::resource::ResourceRow;
use rows::trade::TradeRow;

// A resource is added in the same steps; row, table and count would all be handed to a common one.
impl OpenBook {
    // A load more, at the end of its table.
    pub fn load(
        &mut self,
        qses: &[QseRow],
        loads: &mut [LoadRow],
        resources: &[ResourceRow],
        trades: &[TradeRow],
        list: &[i64],
    ) -> Result<(), Fault>
        ensures { Loads list.now (state_of (open_book self.old) qses.now loads.old resources.now trades.now) (state_of (open_book self.new) qses.now loads.new resources.now trades.now) result }
    {
        if is_broken(self.ledger.counts, qses, loads, resources, trades) {
            return Err(Fault::BrokenTable);
        }
        let row = load_row(list)?;
        if !is_enrolled(&qses[0..self.ledger.counts.qses], row.qse) {
            return Err(Fault::NotEnrolled);
        }
        self.ledger.counts.loads = append(loads, self.ledger.counts.loads, MAX_ROWS, row)?;
        Ok(())
    }
}
