// Worked cases: twelve whose figures are proved from the definitions, and others that are run.
#![tactic(auto)]

mod charges;
#[cfg(test)]
mod covers;
mod entered;
pub mod figures;
mod lists;
mod parts;
#[cfg(test)]
mod refusals;
mod shorts;
#[cfg(test)]
mod tests;
mod trades;
mod two;
mod values;
pub mod worked;
