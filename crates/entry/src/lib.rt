// Lists of signed numbers, checked and read as rows.
#![tactic(auto)]

pub mod checks;
mod codes;
pub mod figures;
pub mod form;
pub mod load;
mod places;
mod powers;
pub mod qse;
pub mod resource;
mod rule;
pub mod trade;
