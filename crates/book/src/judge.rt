// The tests by which calls are judged.
ghost use Rattle.std.specs.Prelude.{ℕ, ◌<◌, ◌≤◌, ◌⊎◌, map, length, ℤ, Decides};
ghost use Rattle.shortfall.specs.Pool.{Among};
ghost use Rattle.book.specs.Causes.{BrokenBy, PlaceOf};

use super::books::Counts;
use rows::load::LoadRow;
use rows::qse::QseRow;
use rows::resource::ResourceRow;
use rows::trade::TradeRow;

// Whether a table is shorter than its count.
pub(crate) fn is_broken(
    counts: Counts,
    qses: &[QseRow],
    loads: &[LoadRow],
    resources: &[ResourceRow],
    trades: &[TradeRow],
) -> bool
    ensures { Decides result (BrokenBy counts.qses counts.loads counts.resources counts.trades (length qses.now) (length loads.now) (length resources.now) (length trades.now)) }
{
    qses.len() < counts.qses
        || loads.len() < counts.loads
        || resources.len() < counts.resources
        || trades.len() < counts.trades
}

// Whether a QSE of that number is among the rows.
pub(crate) fn is_enrolled(qses: &[QseRow], number: u16) -> bool
    ensures { Decides result (Among (map (λ q. q.number) qses.now) number) }
{
    place_of(qses, number).is_some()
}

pub(crate) fn are_enrolled(qses: &[QseRow], one: u16, other: u16) -> bool
    ensures { Decides result (Among (map (λ q. q.number) qses.now) one × Among (map (λ q. q.number) qses.now) other) }
{
    is_enrolled(qses, one) && is_enrolled(qses, other)
}

// The earliest row of a QSE. By a `for`: `position` was tried, and what it gives could not be brought to this statement.
pub(crate) fn place_of(qses: &[QseRow], number: u16) -> Option<usize>
    ensures { PlaceOf (map (λ q. q.number) qses.now) number result }
{
    for (place, q) in qses.iter().enumerate() {
        if q.number == number {
            return Some(place);
        }
    }
    None
}
