// What a QSE enters about itself.
ghost use Rattle.std.specs.Prelude.{ℕ, ◌≤◌, ◌≤ℤ◌};
ghost use Rattle.rows.specs.Limits.{max_power, lowest_power, highest_power};

use super::reserves::{NO_RESERVES, Reserves};

// One side of the figures.
#[derive(Clone, Copy)]
pub struct FiguresSide {
    pub dc_import: u32,
    pub storage_net: i32,
    // obligations to hold reserves
    pub positions: Reserves,
    ghost powers: { dc_import ≤ max_power },
    ghost stored: { (lowest_power ≤ℤ storage_net) × (storage_net ≤ℤ highest_power) },
}

#[derive(Clone, Copy)]
pub struct Figures {
    pub credit: u32,
    // bought and sold in the day-ahead market
    pub purchase: u32,
    pub sale: u32,
    // the import over a DC tie counts on both sides as at the snapshot
    pub tie: bool,
    pub snapshot: FiguresSide,
    pub adjusted: FiguresSide,
    ghost powers: { (credit ≤ max_power) × (purchase ≤ max_power) × (sale ≤ max_power) },
}

// The figures of a QSE that has entered none.
pub const NO_FIGURES: Figures = Figures {
    credit: 0,
    purchase: 0,
    sale: 0,
    tie: false,
    snapshot: NO_SIDE,
    adjusted: NO_SIDE,
};

const NO_SIDE: FiguresSide = FiguresSide {
    dc_import: 0,
    storage_net: 0,
    positions: NO_RESERVES,
};
