// Case 9: a QSE sells capacity to another.
ghost use Rattle.std.specs.Prelude.{◌≡◌, [], ◌∷◌};
ghost use Rattle.cases.specs.Trade.{Enters};
ghost use Rattle.cases.specs.Worked.{sale};

use super::entered::{load, qse, unit};
use super::figures::{Both, Traded};
use super::lists::{ASK_NOTHING, GENERATOR_3000, LOAD, LOAD_500};
use super::shorts::shorts;
use super::two::{Rows, two_qses};
use super::values::values;
use account::account::Tables;
use cover::sub_type::SubType;
use measure::grouped::Grouped;
use shortfall::total::total_short;

// The sum of shortfalls before the trade.
fn before(rows: &Rows) -> Both
    requires { Enters rows.now }
    ensures { result ≡ sale.before }
{
    let tables = Tables {
        loads: &rows.loads,
        resources: &rows.units,
        trades: &[],
    };
    let grouped = total_short(&Grouped {}, &rows.qses, tables);
    let sub_type = total_short(&SubType {}, &rows.qses, tables);
    Both {
        grouped: grouped as u64,
        sub_type: sub_type as u64,
    }
}

// The shortfalls of the buyer and of the seller after it.
fn after(rows: &Rows) -> [Both; 2]
    requires { Enters rows.now }
    ensures { result ≡ sale.buyer ∷ sale.seller ∷ [] }
{
    let tables = Tables {
        loads: &rows.loads,
        resources: &rows.units,
        trades: &rows.trades,
    };
    let [buyer, seller] = &rows.qses;
    [shorts(buyer, tables), shorts(seller, tables)]
}

// One QSE that every row names.
fn pool() -> Both
    ensures { result ≡ sale.pool }
{
    let loads = [load(&LOAD), load(&LOAD_500)];
    values(&qse(&ASK_NOTHING), &loads, &[unit(&GENERATOR_3000)])
}

pub(crate) fn trades() -> Traded
    ensures { result ≡ sale }
{
    let rows = two_qses();
    let [buyer, seller] = after(&rows);
    Traded {
        before: before(&rows),
        buyer,
        seller,
        pool: pool(),
    }
}
