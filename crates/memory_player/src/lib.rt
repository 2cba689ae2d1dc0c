//! Memory-one vectors as players: a weight of C for the opening, and one for each last play.
#![tactic(auto)]

mod laws;
mod player;

pub use laws::vectors_follow_their_rule;
pub use player::{MemoryPlayer, VectorRows};
