// The row of a QSE with its figures.
ghost use Rattle.rows.specs.Rows.{plain_figures};
ghost use Rattle.entry.specs.Keeps.{Entered};
ghost use Rattle.entry.specs.Numbers.{figures_numbers, Unmeasured};

use super::figures::figures_row;
use super::form::Form;
use rows::fault::Fault;
use rows::qse::QseRow;

// No shortfall and no cents are in it yet.
pub fn qse_row(list: &[i64]) -> Result<QseRow, Fault>
    ensures entered { Entered Form.Figures (λ q. figures_numbers q.number (plain_figures q.figures)) list.now result }
    ensures unmeasured { Unmeasured result }
{
    let (number, figures) = figures_row(list)?;
    Ok(QseRow {
        number,
        figures,
        shortfall: 0,
        cents: 0,
    })
}
