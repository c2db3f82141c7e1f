// The rows of a shortfall book, their limits, and why a call is refused.
#![tactic(auto)]

pub mod codes;
pub mod fault;
pub mod fault_code;
pub mod figures;
pub mod limits;
pub mod load;
pub mod qse;
pub mod read;
pub mod reserves;
pub mod resource;
pub mod sub_type;
pub mod trade;
