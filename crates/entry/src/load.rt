// The row of a load.
ghost use Rattle.entry.specs.Keeps.{Entered};
ghost use Rattle.entry.specs.Numbers.{load_numbers, Uncharged};

use super::checks::check;
use super::form::Form;
use rows::fault::Fault;
use rows::load::LoadRow;

// No cents are on it yet.
pub fn load_row(list: &[i64]) -> Result<LoadRow, Fault>
    ensures entered { Entered Form.Load load_numbers list.now result }
    ensures uncharged { Uncharged result }
{
    check(Form::Load, list)?;
    let [qse, point, kwh] = list else {
        return Err(Fault::WrongLength);
    };
    Ok(LoadRow {
        qse: *qse as u16,
        point: *point as u16,
        kwh: *kwh as u32,
        cents: 0,
    })
}
