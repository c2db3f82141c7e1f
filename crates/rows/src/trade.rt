// A trade between two QSEs.
ghost use Rattle.std.specs.Prelude.{ℕ, ◌≤◌};
ghost use Rattle.rows.specs.Limits.{max_power};

use super::codes::{Sides, Traded};

#[derive(Clone, Copy)]
pub struct TradeRow {
    pub traded: Traded,
    pub sides: Sides,
    pub seller: u16,
    pub buyer: u16,
    pub kw: u32,
    // false once the trade is void
    pub counts: bool,
    ghost parties: { (1 ≤ seller) × (1 ≤ buyer) },
    ghost amount: { (1 ≤ kw) × (kw ≤ max_power) },
}
