// The sum of all shortfalls.
ghost use Rattle.std.specs.Prelude.{◌≡◌, ℕ, ◌*◌, ◌≤◌, map};
ghost use Rattle.rows.specs.Rows.{plain_qse};
ghost use Rattle.account.specs.Account.{plain_tables};
ghost use Rattle.shortfall.specs.Pool.{total as total_of, owns, CoversPool, PoolBounded};

use super::measured::Measured;
use account::account::Tables;
use measure::measure::Measure;
use rows::qse::QseRow;

// Each row with its own figures; the sum is at least the shortfall of the pool.
pub fn total_short<'a, M: Measure>(m: &M, rows: &'a [QseRow], tables: Tables<'a>) -> u128
    ensures sum { result ≡ total_of (M.meaning m.now) (owns (plain_tables tables.entry) (map plain_qse rows.now)) }
    ensures pool { CoversPool (M.meaning m.now) (plain_tables tables.entry) (map plain_qse rows.now) result }
    ensures bounded { PoolBounded (M.meaning m.now) (plain_tables tables.entry) (map plain_qse rows.now) }
{
    Measured::of(m, rows, tables).sum
}
