//! Finite machines as players: a machine moves from state to state by what it hears, and plays as it
//! goes.
#![tactic(auto)]

mod laws;
mod player;

pub use laws::machines_follow_their_rule;
pub use player::{MachinePlayer, MachineRows};
