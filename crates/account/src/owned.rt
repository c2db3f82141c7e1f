// Accounts over tables, and the lines of an account.
ghost use Rattle.std.specs.Prelude.{◌≡◌};
ghost use Rattle.rows.specs.Rows.{plain_qse, plain_resource};
ghost use Rattle.account.specs.Account.{LineIn, TablesOf, AccountOf, account_view, plain_tables};
ghost use Rattle.account.specs.Own.{owns_resource, qse_own, view_on};

use super::account::{Account, Tables};
use super::line::Line;
use rows::codes::Side;
use rows::limits::MAX_ROWS;
use rows::load::LoadRow;
use rows::qse::QseRow;
use rows::resource::ResourceRow;
use rows::trade::TradeRow;

impl<'a> Tables<'a> {
    // The tables, or nothing where one has more rows than a book counts.
    pub fn new(
        loads: &'a [LoadRow],
        resources: &'a [ResourceRow],
        trades: &'a [TradeRow],
    ) -> Option<Tables<'a>>
        ensures { TablesOf loads.now resources.now trades.now result }
    {
        if loads.len() > MAX_ROWS || resources.len() > MAX_ROWS || trades.len() > MAX_ROWS {
            return None;
        }
        Some(Tables {
            loads,
            resources,
            trades,
        })
    }
}

impl<'a> Account<'a> {
    // The account of a QSE row on a side.
    pub fn new(row: &'a QseRow, side: Side, tables: Tables<'a>) -> Account<'a>
        ensures reads { AccountOf row.now side tables.entry result }
        ensures view { account_view result ≡ view_on side (qse_own (plain_qse row.now) (plain_tables tables.entry)) }
    {
        Account {
            qse: row.number,
            side,
            figures: &row.figures,
            loads: tables.loads,
            resources: tables.resources,
            trades: tables.trades,
        }
    }

    // Whether a resource row is the QSE's.
    pub fn owns(&self, row: &ResourceRow) -> bool
        ensures { result ≡ owns_resource self.now.qse (plain_resource row.now) }
    {
        row.qse == self.qse
    }

    // The line of a resource row that is the QSE's.
    pub fn line(&self, row: &ResourceRow) -> Option<Line>
        ensures { LineIn self.now row.now result }
    {
        if self.owns(row) {
            Some(Line::of(row, self.side))
        } else {
            None
        }
    }
}
