//! The commands that play: one match, a tournament, and the drill. Each has a definition of a right output
//! and of what its players must be asked, and a function whose contract carries both.
#![tactic(auto)]

mod drill_job;
mod matches;
mod tournament;

pub use drill_job::drill;
pub use matches::lab_match;
pub use tournament::lab_tournament;
