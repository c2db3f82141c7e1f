// The line of a resource on a side.
ghost use Rattle.rows.specs.Rows.{plain_resource};
ghost use Rattle.account.specs.Lines.{line_of};
ghost use Rattle.account.specs.Account.{IsLine};

use super::available::available;
use super::line::Line;
use super::parts::{load_part, off_line_part};
use super::plan::Plan;
use rows::codes::Side;
use rows::resource::ResourceRow;

impl Line {
    // The line of a resource on a side.
    pub fn of(row: &ResourceRow, side: Side) -> Line
        ensures { IsLine result (line_of side (plain_resource row.now)) }
    {
        let plan = Plan::of(row, side);
        let capability = plan.capabilities();
        Line {
            room: plan.room,
            capability: capability.kw,
            available: available(row, side),
            offline: off_line_part(plan.side.status, plan.room, &capability),
            load_part: load_part(row.kind, plan.room, &capability),
        }
    }
}
