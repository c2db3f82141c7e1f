// The shortfall of one QSE.
ghost use Rattle.std.specs.Prelude.{◌≡◌, ℕ, ◌-◌, ◌≤◌, max};
ghost use Rattle.rows.specs.Limits.{max_value};
ghost use Rattle.rows.specs.Rows.{plain_qse};
ghost use Rattle.account.specs.Account.{account_view, plain_tables};
ghost use Rattle.account.specs.Own.{qse_own};
ghost use Rattle.shortfall.specs.Shortfall.{shortfall_of, NeverRaised};

use account::account::{Account, Tables};
use measure::measure::Measure;
use rows::codes::Side;
use rows::qse::QseRow;

// The greater of the two sides' values, less the credit.
fn beyond_credit<M: Measure>(m: &M, snapshot: &Account, adjusted: &Account, credit: u32) -> u64
    ensures { result ≡ max (M.meaning m.now (account_view snapshot.now)) (M.meaning m.now (account_view adjusted.now)) - credit }
{
    m.value(snapshot)
        .max(m.value(adjusted))
        .saturating_sub(u64::from(credit))
}

// By the rows of the QSE alone; one more resource of its own would never raise it.
pub fn short_of<'a, M: Measure>(m: &M, row: &'a QseRow, tables: Tables<'a>) -> u64
    ensures value { result ≡ shortfall_of (M.meaning m.now) (qse_own (plain_qse row.now) (plain_tables tables.entry)) }
    ensures small { result ≤ max_value }
    ensures helped { NeverRaised (M.meaning m.now) (qse_own (plain_qse row.now) (plain_tables tables.entry)) result }
{
    let snapshot = Account::new(row, Side::Snapshot, tables);
    let adjusted = Account::new(row, Side::Adjusted, tables);
    beyond_credit(m, &snapshot, &adjusted, row.figures.credit)
}
