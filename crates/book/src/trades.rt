// Trades entered.
ghost use Rattle.book.specs.State.{state_of, open_book};
ghost use Rattle.book.specs.Entries.{Trades, Voids};

use super::append::append;
use super::books::OpenBook;
use super::judge::{are_enrolled, is_broken};
use entry::trade::trade_row;
use rows::fault::Fault;
use rows::limits::MAX_ROWS;
use rows::load::LoadRow;
use rows::qse::QseRow;
use rows::resource::ResourceRow;
use rows::trade::TradeRow;

impl OpenBook {
    // A trade more, at the end of its table; its place, counted from 0.
    pub fn trade(
        &mut self,
        qses: &[QseRow],
        loads: &[LoadRow],
        resources: &[ResourceRow],
        trades: &mut [TradeRow],
        list: &[i64],
    ) -> Result<usize, Fault>
        ensures { Trades list.now (state_of (open_book self.old) qses.now loads.now resources.now trades.old) (state_of (open_book self.new) qses.now loads.now resources.now trades.new) result }
    {
        if is_broken(self.ledger.counts, qses, loads, resources, trades) {
            return Err(Fault::BrokenTable);
        }
        let row = trade_row(list)?;
        if !are_enrolled(&qses[0..self.ledger.counts.qses], row.seller, row.buyer) {
            return Err(Fault::NotEnrolled);
        }
        if row.buyer == row.seller {
            return Err(Fault::BuyerIsSeller);
        }
        let at = self.ledger.counts.trades;
        self.ledger.counts.trades = append(trades, at, MAX_ROWS, row)?;
        Ok(at)
    }
    // The trade at that place counts no more.
    pub fn void(
        &self,
        qses: &[QseRow],
        loads: &[LoadRow],
        resources: &[ResourceRow],
        trades: &mut [TradeRow],
        place: usize,
    ) -> Result<(), Fault>
        ensures { Voids place (state_of (open_book self.now) qses.now loads.now resources.now trades.old) (state_of (open_book self.now) qses.now loads.now resources.now trades.new) result }
    {
        if is_broken(self.ledger.counts, qses, loads, resources, trades) {
            return Err(Fault::BrokenTable);
        }
        if place >= self.ledger.counts.trades || !trades[place].counts {
            return Err(Fault::NoSuchTrade);
        }
        trades[place].counts = false;
        Ok(())
    }
}
