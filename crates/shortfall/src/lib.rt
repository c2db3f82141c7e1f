// Shortfalls of QSEs under any measure, their sum, and the pool.
#![tactic(auto)]

mod measured;
pub mod short;
pub mod strike;
pub mod total;
