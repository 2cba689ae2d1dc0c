//! The lines in which results are told: a match with its scores and counts, and an entry of a tournament
//! with its total, its rank, and how many matches it won or left undecided. It knows no player and no bench.
#![tactic(auto)]

pub mod laws;
mod line;
mod lowering;
mod ranking;
mod scoring;
mod tables;

pub use history_model::Tally;
pub use line::MatchLine;
pub use ranking::{Rank, rank_of, ranks};
pub use scoring::{entries_of, total_of, undecided_of, wins_of};
pub use tables::{EntryLine, EntryLines, MatchLines, Totals};
