// A QSE: its figures, the shortfall written by the last strike, and the cents charged to it.
ghost use Rattle.std.specs.Prelude.{ℕ, ◌≤◌};
ghost use Rattle.rows.specs.Limits.{max_shortfall, max_cents};

use super::figures::Figures;

#[derive(Clone, Copy)]
pub struct QseRow {
    pub number: u16,
    pub figures: Figures,
    pub shortfall: u32,
    pub cents: u64,
    ghost limits: { (1 ≤ number) × (shortfall ≤ max_shortfall) × (cents ≤ max_cents) },
}
