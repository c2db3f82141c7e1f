// A QSE on a side, and the rows that are lent to it.
ghost use Rattle.std.specs.Prelude.{ℕ, ◌≤◌, length};
ghost use Rattle.rows.specs.Limits.{max_rows};

use rows::codes::Side;
use rows::figures::Figures;
use rows::load::LoadRow;
use rows::resource::ResourceRow;
use rows::trade::TradeRow;

// The tables that accounts read, each of at most 512 rows.
#[derive(Clone, Copy)]
pub struct Tables<'a> {
    pub loads: &'a [LoadRow],
    pub resources: &'a [ResourceRow],
    pub trades: &'a [TradeRow],
    ghost few: { (length loads.now ≤ max_rows) × (length resources.now ≤ max_rows) × (length trades.now ≤ max_rows) },
}

// It holds the lent slices themselves, as `Tables` does: with `Tables` inside, every reader would name one more field.
#[derive(Clone, Copy)]
pub struct Account<'a> {
    pub qse: u16,
    pub side: Side,
    pub figures: &'a Figures,
    pub loads: &'a [LoadRow],
    pub resources: &'a [ResourceRow],
    pub trades: &'a [TradeRow],
    ghost few: { (length loads.now ≤ max_rows) × (length resources.now ≤ max_rows) × (length trades.now ≤ max_rows) },
}
