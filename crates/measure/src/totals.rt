// What the lines of an account give together. No `Backing` stands in it: that one's bound holds of whole
// totals alone, and here lines are still being added.
use super::levels::Levels;

#[derive(Clone, Copy, Default)]
pub struct Totals {
    // available power and load parts
    pub supply: u64,
    // what off-line units serve
    pub offline: u64,
    // what the lines serve of each level
    pub served: Levels,
}
