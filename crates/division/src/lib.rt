// The division of a pot of cents over rows by their weight.
#![tactic(auto)]

pub mod division;
pub mod load_weight;
pub mod qse_weight;
mod split;
#[cfg(test)]
mod tests;
pub mod weighed;
