// second: the shortfall book a second time, written from docs/RULES.md alone to compare the first with. It is proved
// to be safe and to end; what it computes is no claim.
#![tactic(auto)]

pub mod account;
pub mod book;
pub mod calls;
mod causes;
mod cents;
mod covers;
mod edition;
mod entries;
pub mod figures;
mod flow;
mod grouped;
mod limits;
mod line;
pub mod load;
mod network;
mod overall;
pub mod reserves;
mod settling;
mod shorts;
mod trade;
mod unit;
