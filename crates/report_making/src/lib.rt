//! Makes the reports of matches, of tournaments and of drills.
#![tactic(auto)]

mod drill;
mod matches;
mod tournament;

pub use drill::drill_report;
pub use matches::match_report;
pub use tournament::tournament_report;
