// The shortfalls of a QSE by both editions.
ghost use Rattle.rows.specs.Rows.{plain_qse};
ghost use Rattle.account.specs.Account.{plain_tables};
ghost use Rattle.account.specs.Own.{qse_own};
ghost use Rattle.shortfall.specs.Shortfall.{shortfall_of};
ghost use Rattle.cases.specs.Both.{IsBoth};

use super::figures::Both;
use account::account::Tables;
use cover::sub_type::SubType;
use measure::grouped::Grouped;
use rows::qse::QseRow;
use shortfall::short::short_of;

pub(crate) fn shorts<'a>(row: &'a QseRow, tables: Tables<'a>) -> Both
    ensures { IsBoth result (λ m. shortfall_of m (qse_own (plain_qse row.now) (plain_tables tables.entry))) }
{
    Both {
        grouped: short_of(&Grouped {}, row, tables),
        sub_type: short_of(&SubType {}, row, tables),
    }
}
