// Every shortfall written into its row.
ghost use Rattle.std.specs.Prelude.{map};
ghost use Rattle.rows.specs.Rows.{plain_qse};
ghost use Rattle.book.specs.State.{state_of, open_book};
ghost use Rattle.book.specs.Measuring.{Strikes};

use super::books::{OpenBook, StruckBook};
use super::judge::is_broken;
use super::reads::tables_of;
use measure::measure::Measure;
use rows::fault::Fault;
use rows::load::LoadRow;
use rows::qse::QseRow;
use rows::resource::ResourceRow;
use rows::trade::TradeRow;
use shortfall::strike::write_shortfalls;

impl OpenBook {
    // The struck book with the sum of the shortfalls, or the open book as it was.
    pub fn strike<'a, M: Measure>(
        self,
        m: &M,
        qses: &mut [QseRow],
        loads: &'a [LoadRow],
        resources: &'a [ResourceRow],
        trades: &'a [TradeRow],
    ) -> Result<(StruckBook, u32), (OpenBook, Fault)>
        ensures { Strikes (M.meaning m.now) self (state_of (open_book self) qses.old loads.now resources.now trades.now) (map plain_qse qses.new) result }
    {
        if is_broken(self.ledger.counts, qses, loads, resources, trades) {
            return Err((self, Fault::BrokenTable));
        }
        let n = self.ledger.counts.qses;
        let tables = tables_of(self.ledger.counts, loads, resources, trades);
        match write_shortfalls(m, &mut qses[0..n], tables) {
            Err(fault) => Err((self, fault)),
            Ok(t) => {
                let total = t as u32;
                Ok((
                    StruckBook {
                        ledger: self.ledger,
                        total,
                    },
                    total,
                ))
            }
        }
    }
}
