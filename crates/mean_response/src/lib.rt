//! The greatest mean score against a sure automaton, whatever the responder remembers: potentials that
//! bound it in any number of turns, and a lasso of own moves that attains it.
//!
//! The search makes one pass over the best walks of each length up to the number of rows (Karp, *A
//! characterization of the minimum cycle mean in a digraph*, Discrete Mathematics 23, 1978).
#![tactic(auto)]

mod graph;
mod lasso;
mod layers;
mod potentials;
mod ratio;
mod response;
mod table;

pub use response::{MeanResponse, mean};
