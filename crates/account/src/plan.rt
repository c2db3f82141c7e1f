// The plan of a resource on a side, with what it can move in all and of each sub-type.
ghost use Rattle.std.specs.Prelude.{◌≡◌, ℕ, ◌<◌, ◌≤◌, slice_index};
ghost use Rattle.rows.specs.Limits.{max_power};
ghost use Rattle.rows.specs.Rows.{plain_side, plain_resource};
ghost use Rattle.account.specs.Lines.{plan_on, room_of, barred as barredBy, least_of, capability_of};

use rows::codes::{Side, Status};
use rows::reserves::Reserves;
use rows::resource::{ResourceRow, ResourceSide};
use std::array;

#[derive(Clone, Copy)]
pub(crate) struct Plan<'a> {
    pub(crate) side: &'a ResourceSide,
    // in kW; no service goes beyond it
    pub(crate) room: u32,
    ghost is: { room ≡ room_of (plain_side side.now) },
}

// A pick by side, as `figures_on` in figures.rt.
pub(crate) fn side_of(row: &ResourceRow, side: Side) -> &ResourceSide
    ensures { plain_side result.now ≡ plan_on side (plain_resource row.now) }
{
    match side {
        Side::Snapshot => &row.snapshot,
        Side::Adjusted => &row.adjusted,
    }
}

fn room_in(plan: &ResourceSide) -> u32
    ensures { result ≡ room_of (plain_side plan.now) }
{
    match plan.status {
        Status::Absent => 0,
        Status::On => (i64::from(plan.hsl) - i64::from(plan.lsl)) as u32,
        Status::Off | Status::OffQs => plan.hsl,
    }
}

// Whether the status rules out the sub-type at place `k`.
fn barred(status: Status, k: usize) -> bool
    ensures { result ≡ barredBy status k }
{
    match status {
        Status::Absent | Status::On => false,
        Status::Off => k < 7,
        Status::OffQs => k < 5,
    }
}

impl<'a> Plan<'a> {
    pub(crate) fn of(row: &'a ResourceRow, side: Side) -> Plan<'a>
        ensures { plain_side result.side.now ≡ plan_on side (plain_resource row.now) }
    {
        let side = side_of(row, side);
        Plan {
            side,
            room: room_in(side),
        }
    }

    fn least(&self, k: usize) -> u32
        requires { k < 9 }
        ensures { result ≡ least_of (plain_side self.now.side.now) k }
    {
        let plan = self.side;
        self.room.min(plan.offered.kw[k].min(plan.cop.kw[k].min(plan.qualified.kw[k])))
    }

    fn capability(&self, k: usize) -> u32
        requires { k < 9 }
        ensures value { result ≡ capability_of (plain_side self.now.side.now) k }
        ensures small { result ≤ max_power }
    {
        if barred(self.side.status, k) {
            0
        } else {
            self.least(k)
        }
    }

    pub(crate) fn capabilities(&self) -> Reserves
        ensures { (k : ℕ) → k < 9 → slice_index result.kw k ≡ capability_of (plain_side self.now.side.now) k }
    {
        Reserves {
            kw: array::from_fn(|k| self.capability(k)),
        }
    }
}
