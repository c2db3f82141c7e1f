// QSEs enrolled.
ghost use Rattle.std.specs.Prelude.{◌≡◌, ℕ, ◌≤◌};
ghost use Rattle.rows.specs.Rows.{plain_qse};
ghost use Rattle.book.specs.State.{state_of, open_book};
ghost use Rattle.book.specs.Entries.{Enrols, new_qse};

use super::append::append;
use super::books::OpenBook;
use super::judge::{is_broken, is_enrolled};
use super::reads::qse_number;
use rows::fault::Fault;
use rows::figures::NO_FIGURES;
use rows::limits::MAX_QSES;
use rows::load::LoadRow;
use rows::qse::QseRow;
use rows::resource::ResourceRow;
use rows::trade::TradeRow;

// A QSE without figures, not short and not charged.
fn new_row(number: u16) -> QseRow
    requires { 1 ≤ number }
    ensures { plain_qse result ≡ new_qse number }
{
    QseRow {
        number,
        figures: NO_FIGURES,
        shortfall: 0,
        cents: 0,
    }
}

impl OpenBook {
    // A QSE more, at the end of its table.
    pub fn enrol(
        &mut self,
        qses: &mut [QseRow],
        loads: &[LoadRow],
        resources: &[ResourceRow],
        trades: &[TradeRow],
        number: i64,
    ) -> Result<(), Fault>
        ensures { Enrols number (state_of (open_book self.old) qses.old loads.now resources.now trades.now) (state_of (open_book self.new) qses.new loads.now resources.now trades.now) result }
    {
        if is_broken(self.ledger.counts, qses, loads, resources, trades) {
            return Err(Fault::BrokenTable);
        }
        let number = qse_number(number)?;
        let at = self.ledger.counts.qses;
        if is_enrolled(&qses[0..at], number) {
            return Err(Fault::AlreadyEnrolled);
        }
        self.ledger.counts.qses = append(qses, at, MAX_QSES, new_row(number))?;
        Ok(())
    }
}
