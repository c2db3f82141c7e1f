// What a resource makes available on a side.
ghost use Rattle.std.specs.Prelude.{◌≡◌, ◌≤◌};
ghost use Rattle.rows.specs.Limits.{max_power};
ghost use Rattle.rows.specs.Rows.{plain_side, plain_resource};
ghost use Rattle.account.specs.Lines.{ready as readyBy, giveable as giveableBy, own_available, available_side, available_of};

use super::plan::side_of;
use rows::codes::{Kind, Side, Status};
use rows::resource::{ResourceRow, ResourceSide};

fn ready(status: Status) -> bool
    ensures { result ≡ readyBy status }
{
    matches!(status, Status::On | Status::OffQs)
}

// That what is available is a power figure stands in the clauses: a type for it would be opened again in each sum.
fn giveable(kind: Kind, plan: &ResourceSide) -> u32
    ensures value { result ≡ giveableBy kind (plain_side plan.now) }
    ensures small { result ≤ max_power }
{
    match kind {
        Kind::Generation | Kind::Storage => plan.hsl,
        Kind::Renewable => plan.hsl.min(plan.potential),
        Kind::LoadResource => 0,
    }
}

fn own_available(kind: Kind, plan: &ResourceSide) -> u32
    ensures value { result ≡ own_available kind (plain_side plan.now) }
    ensures small { result ≤ max_power }
{
    if ready(plan.status) {
        giveable(kind, plan)
    } else {
        0
    }
}

// The side whose plan says what is available.
fn available_side(row: &ResourceRow, side: Side) -> Side
    ensures { result ≡ available_side side (plain_resource row.now) }
{
    if row.kind == Kind::Renewable || row.outage {
        Side::Snapshot
    } else {
        side
    }
}

pub(crate) fn available(row: &ResourceRow, side: Side) -> u32
    ensures value { result ≡ available_of side (plain_resource row.now) }
    ensures small { result ≤ max_power }
{
    if let Some(before) = row.decommitted {
        return before;
    }
    own_available(row.kind, side_of(row, available_side(row, side)))
}
