// A cover of one QSE's positions on a side.
ghost use Rattle.book.specs.State.{state_of, open_book};
ghost use Rattle.book.specs.Measuring.{Covers};

use super::books::OpenBook;
use super::judge::{is_broken, place_of};
use super::reads::{qse_number, side_of, tables_of};
use account::account::Account;
use cover::covering::cover;
use rows::fault::Fault;
use rows::load::LoadRow;
use rows::qse::QseRow;
use rows::resource::ResourceRow;
use rows::trade::TradeRow;

impl OpenBook {
    // Writes fourteen amounts for each of the QSE's resources, and gives what they leave uncovered.
    pub fn cover<'a>(
        &self,
        qses: &'a [QseRow],
        loads: &'a [LoadRow],
        resources: &'a [ResourceRow],
        trades: &'a [TradeRow],
        covers: &mut [[u32; 14]],
        qse: i64,
        side: i64,
    ) -> Result<u64, Fault>
        ensures { Covers qse side (state_of (open_book self.now) qses.now loads.now resources.now trades.now) covers.old covers.new result }
    {
        if is_broken(self.ledger.counts, qses, loads, resources, trades) {
            return Err(Fault::BrokenTable);
        }
        let number = qse_number(qse)?;
        let on = side_of(side)?;
        let Some(place) = place_of(&qses[0..self.ledger.counts.qses], number) else {
            return Err(Fault::NotEnrolled);
        };
        let tables = tables_of(self.ledger.counts, loads, resources, trades);
        let account = Account::new(&qses[place], on, tables);
        cover(&account, covers)
    }
}
