// QSEs and rows that look drawn and are the same in every run, as lists that can be entered.
#![tactic(auto)]

pub mod draws;
mod figures;
mod load;
#[cfg(test)]
mod tests;
mod trade;
mod unit;
