//! Reads the job tables of a lab file. Of the entries it takes their names, in file order; a job
//! has their places.
//!
//! Each answer is exactly what a definition on the document says: the jobs, or the first refusal
//! with its place.
#![tactic(auto)]

mod jobs;
pub mod laws;
mod pairs;
mod places;
mod tournament;

pub use jobs::{Jobs, MatchJob, jobs_of};
pub use tournament::{Edge, Edges, TournamentJob};
