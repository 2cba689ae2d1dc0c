//! Seven strategies that are known by their names, as players.
#![tactic(auto)]

mod builtin;
mod laws;
mod plug;

pub use builtin::Builtin;
pub use laws::{builtins_are_sure, builtins_follow_their_rules};
pub use plug::PlugPlayer;
