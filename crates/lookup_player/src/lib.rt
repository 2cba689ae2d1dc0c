//! Lookup tables as players: a table looks at a few last plays of both players and at a few first
//! plays of the other, and has a weight for each choice of them.
#![tactic(auto)]

mod known;
mod laws;
mod player;
mod rows;

pub use laws::tables_follow_their_rule;
pub use player::{LookupPlayer, TableRows};
