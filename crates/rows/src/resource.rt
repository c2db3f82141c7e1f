// A resource of a QSE.
ghost use Rattle.std.specs.Prelude.{◌≡◌, ℕ, ◌≤◌, true, false, None, pos, ◌≤ℤ◌};
ghost use Rattle.rows.specs.Codes.{is_renewable, is_storage, is_unmarked, kw_before};
ghost use Rattle.rows.specs.Limits.{max_power, lowest_power};

use super::codes::{Kind, Status};
use super::reserves::Reserves;

// The plan of the resource on one side: its high and low sustained limits (HSL, LSL), the power
// that wind or sun could give, and what of reserves is offered, stands in the current operating plan
// (COP), and the unit is qualified for.
#[derive(Clone, Copy)]
pub struct ResourceSide {
    pub status: Status,
    pub hsl: u32,
    pub lsl: i32,
    pub potential: u32,
    // three lists, as they are entered and as the rules name them, not one list of triples
    pub offered: Reserves,
    pub cop: Reserves,
    pub qualified: Reserves,
    ghost powers: { (hsl ≤ max_power) × (potential ≤ max_power) },
    ghost span: { (lowest_power ≤ℤ lsl) × (lsl ≤ℤ pos hsl) },
}

#[derive(Clone, Copy)]
pub struct ResourceRow {
    pub qse: u16,
    pub kind: Kind,
    pub outage: bool,
    // the kW before the decommitment, where the resource is decommitted
    pub decommitted: Option<u32>,
    pub snapshot: ResourceSide,
    pub adjusted: ResourceSide,
    ghost named: { 1 ≤ qse },
    ghost marks: { is_unmarked kind ≡ true → (outage ≡ false) × (decommitted ≡ None) },
    ghost instead: { kw_before decommitted ≤ max_power },
    ghost wind: { is_renewable kind ≡ false → (snapshot.potential ≡ 0) × (adjusted.potential ≡ 0) },
    ghost charging: { is_storage kind ≡ false → (pos 0 ≤ℤ snapshot.lsl) × (pos 0 ≤ℤ adjusted.lsl) },
}
