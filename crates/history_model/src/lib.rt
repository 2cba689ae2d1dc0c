//! The model that every crate of the laboratory speaks of: moves, plays, games, noise, automata,
//! names, and the definitions that contracts cite.
#![tactic(auto)]

mod game;
mod grid;
mod laws;
mod moves;
mod name;
mod noise;
mod tally;
mod whole;

pub use game::Game;
pub use grid::{Grid, GridRow};
pub use laws::{
    automata_are_weighed, counts_are_paid, histories_agree_with_rows, masses_add_up, offset_lowers,
    path_is_one, plan_is_followed, sides_are_alike, weights_decide,
};
pub use moves::{Move, Play};
pub use name::Name;
pub use noise::Noise;
use std::alloc::{AllocError, AllocFailed};
pub use tally::Tally;
pub use whole::{WholePair, play_all};

/// Want of memory: the error of each call that has no other.
#[derive(Clone, Copy, Debug, PartialEq, Eq)]
pub struct NoMemory;

impl From<AllocError> for NoMemory {
    fn from(_: AllocError) -> Self {
        NoMemory
    }
}

impl<T: Drop> From<AllocFailed<T>> for NoMemory {
    fn from(_: AllocFailed<T>) -> Self {
        NoMemory
    }
}
