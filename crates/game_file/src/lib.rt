//! Reads the game and the noises of a lab file.
#![tactic(auto)]

mod game;

pub use game::{read_game, read_noise};
