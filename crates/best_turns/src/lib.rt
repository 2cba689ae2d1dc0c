//! Best responses to an automaton in a number of turns: a table of what is attained and of what no
//! strategy exceeds, whatever it remembers, by backward induction over turns left and rows.
#![tactic(auto)]

mod induction;
mod meeting;
mod response;
mod worth;

pub use response::{Response, best};
