// The editions of the rules, chosen when a program runs.
#![tactic(auto)]

pub mod edition;
pub mod names;
pub mod places;
pub mod value;
