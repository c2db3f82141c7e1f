// The load of a QSE at a settlement point in the interval, and the cents put on it.
ghost use Rattle.std.specs.Prelude.{ℕ, ◌≤◌};
ghost use Rattle.rows.specs.Limits.{max_kwh, max_cents};

#[derive(Clone, Copy)]
pub struct LoadRow {
    pub qse: u16,
    pub point: u16,
    pub kwh: u32,
    pub cents: u64,
    ghost limits: { (1 ≤ qse) × (kwh ≤ max_kwh) × (cents ≤ max_cents) },
}
