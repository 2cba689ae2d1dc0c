//! Entrants, a sheet and a noise each: how they choose by the rules of their sheets, what they expect of each
//! other, and when the line of a match of two of them is right. It knows no bench, no lab and no report.
#![tactic(auto)]

mod contestant;
mod laws;

pub use contestant::Contestant;
pub use laws::entrants_follow_their_rules;
