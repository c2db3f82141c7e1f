// A line: what one unit gives on a side.
use super::account::Side;
use super::reserves::{Amounts, RESERVES, Reserve, SLOW, UPWARD};
use super::unit::{Kind, Status, Unit, UnitSide};

#[derive(Clone, Copy)]
pub(crate) struct Line {
    pub(crate) room: i64,
    pub(crate) capabilities: Amounts,
    pub(crate) available: i64,
    pub(crate) off_line: i64,
    pub(crate) load_part: i64,
}

impl Line {
    pub(crate) fn of(unit: &Unit, side: Side) -> Line {
        let plan = plan_of(unit, side);
        let room = room_of(plan);
        let capabilities = capabilities_of(plan, room);
        let is_off_line = matches!(&plan.status, Status::Off | Status::QuickStart);
        Line {
            room,
            capabilities,
            available: available_of(unit, side),
            off_line: if is_off_line {
                room.min(capabilities.sum_of(&SLOW))
            } else {
                0
            },
            load_part: if unit.kind == Kind::LoadResource {
                room.min(capabilities.sum_of(&UPWARD))
            } else {
                0
            },
        }
    }
}

fn plan_of(unit: &Unit, side: Side) -> &UnitSide {
    match side {
        Side::Snapshot => &unit.snapshot,
        Side::Adjusted => &unit.adjusted,
    }
}

fn room_of(plan: &UnitSide) -> i64 {
    match plan.status {
        Status::Absent => 0,
        Status::On => plan.hsl.saturating_sub(plan.lsl),
        Status::Off | Status::QuickStart => plan.hsl,
    }
}

fn capabilities_of(plan: &UnitSide, room: i64) -> Amounts {
    let mut capabilities = Amounts::zero();
    for reserve in RESERVES {
        if can_give(plan.status, reserve) {
            let least = room
                .min(plan.offered.of(reserve))
                .min(plan.cop.of(reserve))
                .min(plan.qualified.of(reserve));
            capabilities.set(reserve, least);
        }
    }
    capabilities
}

// What stands against a status; an absent unit has no room.
fn can_give(status: Status, reserve: Reserve) -> bool {
    match reserve {
        Reserve::Nss | Reserve::Nsm => true,
        Reserve::Ecs | Reserve::Ecm => status != Status::Off,
        _ => status != Status::Off && status != Status::QuickStart,
    }
}

fn available_of(unit: &Unit, side: Side) -> i64 {
    if unit.is_decommitted {
        return unit.kw_before;
    }
    let holds_the_snapshot = unit.is_out || unit.kind == Kind::WindOrSolar;
    if holds_the_snapshot {
        own_available(unit.kind, &unit.snapshot)
    } else {
        own_available(unit.kind, plan_of(unit, side))
    }
}

fn own_available(kind: Kind, plan: &UnitSide) -> i64 {
    if plan.status != Status::On && plan.status != Status::QuickStart {
        return 0;
    }
    match kind {
        Kind::Generation | Kind::Storage => plan.hsl,
        Kind::WindOrSolar => plan.hsl.min(plan.potential),
        Kind::LoadResource => 0,
    }
}
