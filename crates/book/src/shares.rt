// The share of one QSE in the sum of the shortfalls.
ghost use Rattle.book.specs.State.{state_of, struck_book};
ghost use Rattle.book.specs.Measuring.{Shares};

use super::books::StruckBook;
use super::judge::{is_broken, place_of};
use super::reads::qse_number;
use rows::fault::Fault;
use rows::load::LoadRow;
use rows::qse::QseRow;
use rows::resource::ResourceRow;
use rows::trade::TradeRow;

impl StruckBook {
    // The shortfall in the QSE's earliest row and the sum of all; nothing where no QSE was short.
    pub fn share(
        &self,
        qses: &[QseRow],
        loads: &[LoadRow],
        resources: &[ResourceRow],
        trades: &[TradeRow],
        qse: i64,
    ) -> Result<Option<(u32, u32)>, Fault>
        ensures { Shares qse (state_of (struck_book self.now) qses.now loads.now resources.now trades.now) result }
    {
        if is_broken(self.ledger.counts, qses, loads, resources, trades) {
            return Err(Fault::BrokenTable);
        }
        let number = qse_number(qse)?;
        let Some(place) = place_of(&qses[0..self.ledger.counts.qses], number) else {
            return Err(Fault::NotEnrolled);
        };
        if self.total == 0 {
            return Ok(None);
        }
        Ok(Some((qses[place].shortfall, self.total)))
    }
}
