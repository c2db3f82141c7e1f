// Measures of an account: how many kW a QSE is short on a side.
#![tactic(auto)]

pub mod backing;
pub mod breakdown;
pub mod greater;
pub mod grouped;
pub mod grouped_parts;
pub mod levels;
pub mod levels_of;
pub mod measure;
pub mod overall;
pub mod storage_net;
pub mod totals;
pub mod totals_of;
