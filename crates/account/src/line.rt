// What one resource gives on a side: thirteen numbers, none below 0.
ghost use Rattle.std.specs.Prelude.{ℕ, ◌≤◌};
ghost use Rattle.rows.specs.Limits.{Powers, max_power};

#[derive(Clone, Copy)]
pub struct Line {
    // what the unit can move in all; no service goes beyond it
    pub room: u32,
    // by sub-type, in their order; nine of thirteen plain numbers, and no `Reserves`, since measures read them so
    pub capability: [u32; 9],
    pub available: u32,
    // what of ECRS and Non-Spin an off-line unit serves
    pub offline: u32,
    // what a load resource serves upward
    pub load_part: u32,
    ghost small: { (room ≤ 20000000) × Powers capability × (available ≤ max_power) × (offline ≤ 20000000) × (load_part ≤ 20000000) },
}
