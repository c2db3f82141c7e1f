// The figures of a QSE entered.
ghost use Rattle.book.specs.State.{state_of, open_book};
ghost use Rattle.book.specs.Entries.{Figured};

use super::books::OpenBook;
use super::judge::{is_broken, place_of};
use entry::figures::figures_row;
use rows::fault::Fault;
use rows::load::LoadRow;
use rows::qse::QseRow;
use rows::resource::ResourceRow;
use rows::trade::TradeRow;

impl OpenBook {
    // New figures in place of the old; shortfall and cents stay.
    pub fn figures(
        &self,
        qses: &mut [QseRow],
        loads: &[LoadRow],
        resources: &[ResourceRow],
        trades: &[TradeRow],
        list: &[i64],
    ) -> Result<(), Fault>
        ensures { Figured list.now (state_of (open_book self.now) qses.old loads.now resources.now trades.now) (state_of (open_book self.now) qses.new loads.now resources.now trades.now) result }
    {
        if is_broken(self.ledger.counts, qses, loads, resources, trades) {
            return Err(Fault::BrokenTable);
        }
        let (number, figures) = figures_row(list)?;
        let Some(place) = place_of(&qses[0..self.ledger.counts.qses], number) else {
            return Err(Fault::NotEnrolled);
        };
        qses[place].figures = figures;
        Ok(())
    }
}
