// The account of a QSE on a side, which reads rows and copies none.
#![tactic(auto)]

pub mod account;
mod available;
pub mod capabilities;
pub mod counted;
pub mod figures;
pub mod line;
pub mod lines;
pub mod moved;
pub mod owned;
mod parts;
pub mod party;
mod plan;
pub mod standing;
pub mod trades;
