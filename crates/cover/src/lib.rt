// Covers of positions by the lines of an account, and the edition of the rules that counts by sub-type.
#![tactic(auto)]

pub mod binding;
pub mod covering;
pub mod given;
pub mod giving;
pub mod lacking;
pub mod limits;
mod offer;
pub mod pairs;
mod pending;
pub mod sets;
pub mod sub_type;
pub mod sums;
pub mod uncovered;
