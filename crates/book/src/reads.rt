// What calls read of their arguments.
ghost use Rattle.std.specs.Prelude.{◌≡◌, ℕ, ◌≤◌, length};
ghost use Rattle.account.specs.Account.{plain_tables};
ghost use Rattle.book.specs.Reading.{NumberOf, SideOf, counted_tables};

use super::books::Counts;
use account::account::Tables;
use entry::checks::is_within;
use rows::codes::Side;
use rows::fault::Fault;
use rows::limits::MAX_NUMBER;
use rows::load::LoadRow;
use rows::resource::ResourceRow;
use rows::trade::TradeRow;

// The number of the QSE that a call names.
pub(crate) fn qse_number(qse: i64) -> Result<u16, Fault>
    ensures { NumberOf qse result }
{
    if !is_within(qse, 1, MAX_NUMBER as i64) {
        return Err(Fault::OutOfLimits { place: 1 });
    }
    Ok(qse as u16)
}

// The side that a call names.
pub(crate) fn side_of(side: i64) -> Result<Side, Fault>
    ensures { SideOf side result }
{
    Side::try_from(side).map_err(|_| Fault::OutOfLimits { place: 2 })
}

// The counted rows of the tables, which no later row reaches.
pub(crate) fn tables_of<'a>(
    counts: Counts,
    loads: &'a [LoadRow],
    resources: &'a [ResourceRow],
    trades: &'a [TradeRow],
) -> Tables<'a>
    requires { (counts.loads ≤ length loads.now) × ((counts.resources ≤ length resources.now) × (counts.trades ≤ length trades.now)) }
    ensures { plain_tables result ≡ counted_tables counts loads.now resources.now trades.now }
{
    let (l, r, t) = (counts.loads, counts.resources, counts.trades);
    Tables {
        loads: &loads[0..l],
        resources: &resources[0..r],
        trades: &trades[0..t],
    }
}
