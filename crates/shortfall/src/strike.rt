// Shortfalls written into their rows.
ghost use Rattle.std.specs.Prelude.{map};
ghost use Rattle.rows.specs.Rows.{plain_qse};
ghost use Rattle.account.specs.Account.{plain_tables};
ghost use Rattle.shortfall.specs.Strike.{Struck};

use super::measured::Measured;
use account::account::Tables;
use measure::measure::Measure;
use rows::fault::Fault;
use rows::limits::MAX_SHORTFALL;
use rows::qse::QseRow;

// Writes each shortfall into its row and gives their sum T; nothing is written where T is too high.
pub fn write_shortfalls<M: Measure>(
    m: &M,
    rows: &mut [QseRow],
    tables: Tables,
) -> Result<u64, Fault>
    ensures { Struck (M.meaning m.now) (plain_tables tables.entry) (map plain_qse rows.old) (map plain_qse rows.new) result }
{
    let measured = Measured::of(m, rows, tables);
    let t = measured.sum;
    if t > u128::from(MAX_SHORTFALL) {
        return Err(Fault::TotalTooHigh);
    }
    for (i, row) in rows.iter_mut().enumerate() {
        let s = measured.short_at(m, row, tables, i);
        row.shortfall = s as u32;
    }
    Ok(t as u64)
}
