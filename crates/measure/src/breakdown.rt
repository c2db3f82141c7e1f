// The figures from which the value of the grouped edition is made.
use super::levels::Levels;

#[derive(Clone, Copy)]
pub struct Breakdown {
    pub load: u64,
    pub net: i64,
    pub overall: u64,
    pub levels: Levels,
    pub reserve: u64,
    pub value: u64,
}
