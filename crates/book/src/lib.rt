// The shortfall book: every call, with its refusals.
#![tactic(auto)]

mod append;
pub mod books;
pub mod covers;
pub mod enrols;
pub mod figures;
pub mod judge;
pub mod loads;
pub mod opens;
pub mod reads;
pub mod reopens;
pub mod resources;
pub mod shares;
pub mod shorts;
pub mod strikes;
pub mod trades;
