// The limits of figures, in kW, kWh and cents.

// A power figure is 0 to this many kW.
pub const MAX_POWER: u32 = 10_000_000;

// A load row holds at most this many kWh.
pub const MAX_KWH: u32 = 1_000_000;

// A row of any table holds at most this many cents.
pub const MAX_CENTS: u64 = 1_000_000_000_000;

// No shortfall written into a row, and no sum of them, is above this.
pub const MAX_SHORTFALL: u32 = 4_000_000_000;

// The greatest number of a QSE, and of a settlement point.
pub const MAX_NUMBER: u16 = 65535;

pub const MAX_POINT: u16 = 65535;

// The cost of a unit, or the part of it that one claim is for, is 1 to this many cents.
pub const MAX_COST: u32 = 1_000_000_000;

// The rate of a claim is at most this many cents per MW.
pub const MAX_RATE: u32 = 1_000_000;

// A book makes at most this many claims.
pub const MAX_CLAIMS: u16 = 1000;

// How many sub-types of reserves there are.
pub const SUB_TYPES: usize = 9;

// Most QSEs of a book.
pub const MAX_QSES: usize = 64;

// Most rows that a table of loads, resources or trades counts.
pub const MAX_ROWS: usize = 512;
