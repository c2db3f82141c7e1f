// Every shortfall measured once, before any is written.
ghost use Rattle.std.specs.Prelude.{◌≡◌, ℕ, ◌<◌, ◌≤◌, map, length, slice_index};
ghost use Rattle.rows.specs.Rows.{plain_qse};
ghost use Rattle.account.specs.Account.{plain_tables};
ghost use Rattle.shortfall.specs.Pool.{total as total_of, owns};
ghost use Rattle.shortfall.specs.Strike.{row_short, First};

use super::short::short_of;
use account::account::Tables;
use measure::measure::Measure;
use rows::limits::MAX_QSES;
use rows::qse::QseRow;

#[derive(Clone, Copy)]
pub(crate) struct Measured {
    pub(crate) sum: u128,
    // the shortfalls of the first rows, in their order, kept so that they are not measured again; a book has no more
    first: [u64; MAX_QSES],
}

// Notes a shortfall where there is a place for it.
fn keep(first: &mut [u64; MAX_QSES], i: usize, s: u64)
    ensures here { i < MAX_QSES → slice_index first.new i ≡ s }
    ensures others { (k : ℕ) → k < i → slice_index first.new k ≡ slice_index first.old k }
{
    if i < MAX_QSES {
        first[i] = s;
    }
}

impl Measured {
    // The sum of all shortfalls, and the first of them. The QSE rows stand beside the tables, here and in the two calls
    // that ask this: one of them writes the rows while it reads the tables.
    pub(crate) fn of<'a, M: Measure>(m: &M, rows: &'a [QseRow], tables: Tables<'a>) -> Measured
        ensures sum { result.sum ≡ total_of (M.meaning m.now) (owns (plain_tables tables.entry) (map plain_qse rows.now)) }
        ensures first { First (M.meaning m.now) (plain_tables tables.entry) rows.now result.first }
    {
        let mut sum = 0u128;
        let mut first = [0u64; MAX_QSES];
        for (i, row) in rows.iter().enumerate() {
            let s = short_of(m, row, tables);
            sum += u128::from(s);
            keep(&mut first, i, s);
        }
        Measured { sum, first }
    }

    // The shortfall of the row at place `i`: as it was kept, or measured again.
    pub(crate) fn short_at<'a, M: Measure>(
        &self,
        m: &M,
        row: &'a QseRow,
        tables: Tables<'a>,
        i: usize,
    ) -> u64
        requires { i < MAX_QSES → slice_index self.now.first i ≡ row_short (M.meaning m.now) (plain_tables tables) (plain_qse row.now) }
        ensures { result ≡ row_short (M.meaning m.now) (plain_tables tables.entry) (plain_qse row.now) }
    {
        match self.first.get(i) {
            Some(kept) => *kept,
            None => short_of(m, row, tables),
        }
    }
}
