// A struck book opened again.
ghost use Rattle.book.specs.State.{state_of, struck_book};
ghost use Rattle.book.specs.Claims.{Reopens};

use super::books::{OpenBook, StruckBook};
use super::judge::is_broken;
use rows::fault::Fault;
use rows::load::LoadRow;
use rows::qse::QseRow;
use rows::resource::ResourceRow;
use rows::trade::TradeRow;

impl StruckBook {
    // Shortfalls stay written until the next strike.
    pub fn reopen(
        self,
        qses: &[QseRow],
        loads: &[LoadRow],
        resources: &[ResourceRow],
        trades: &[TradeRow],
    ) -> Result<OpenBook, (StruckBook, Fault)>
        ensures { Reopens self (state_of (struck_book self) qses.now loads.now resources.now trades.now) result }
    {
        if is_broken(self.ledger.counts, qses, loads, resources, trades) {
            return Err((self, Fault::BrokenTable));
        }
        if self.ledger.outstanding > 0 {
            return Err((self, Fault::ClaimOutstanding));
        }
        Ok(OpenBook {
            ledger: self.ledger,
        })
    }
}
