// A list of calls run on a book, and what holds of every such run.
#![tactic(auto)]

pub mod answers;
pub mod calls;
pub mod opens;
pub mod purse;
pub mod run;
pub mod strucks;
