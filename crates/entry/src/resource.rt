// The row of a resource.
ghost use Rattle.std.specs.Prelude.{◌≡◌};
ghost use Rattle.rows.specs.Rows.{plain_resource, plain_side};
ghost use Rattle.entry.specs.Keeps.{Entered};
ghost use Rattle.entry.specs.Numbers.{resource_numbers, side_numbers};
ghost use Rattle.entry.specs.Parts.{Fits};
ghost use Rattle.entry.specs.Places.{resource_side};

use super::checks::check;
use super::codes::{decommitted_at, status_of};
use super::form::Form;
use super::places::{COP, OFFERED, QUALIFIED, RESOURCE_SIDE_SIZE};
use super::powers::nine;
use rows::codes::Kind;
use rows::fault::Fault;
use rows::resource::{ResourceRow, ResourceSide};

fn resource_side(list: &[i64]) -> ResourceSide
    requires { Fits resource_side list.now }
    ensures { side_numbers (plain_side result) ≡ list.now }
{
    ResourceSide {
        status: status_of(list[0]),
        hsl: list[1] as u32,
        lsl: list[2] as i32,
        potential: list[3] as u32,
        offered: nine(&list[OFFERED..COP]),
        cop: nine(&list[COP..QUALIFIED]),
        qualified: nine(&list[QUALIFIED..RESOURCE_SIDE_SIZE]),
    }
}

pub fn resource_row(list: &[i64]) -> Result<ResourceRow, Fault>
    ensures { Entered Form.Resource (λ q. resource_numbers (plain_resource q)) list.now result }
{
    check(Form::Resource, list)?;
    let [qse, kind, outage, decommitted, before, rest @ ..] = list else {
        return Err(Fault::WrongLength);
    };
    let (snapshot, adjusted) = rest.split_at(RESOURCE_SIDE_SIZE);
    Ok(ResourceRow {
        qse: *qse as u16,
        kind: Kind::try_from(*kind).unwrap(),
        outage: *outage == 1,
        decommitted: decommitted_at(*decommitted, *before),
        snapshot: resource_side(snapshot),
        adjusted: resource_side(adjusted),
    })
}
