//! The Moran process of two types: the chance that one takes over a population.
#![tactic(auto)]

mod chain;
mod fixing;
mod laws;
mod ranges;
mod worths;

pub use fixing::{Chance, MoranVerdict, fixation};
pub use laws::{fixation_bounds_steps, fixation_solves, solutions_are_fixation};
