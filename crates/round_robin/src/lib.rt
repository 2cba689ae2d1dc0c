//! Matches as lines of results, and what a tournament makes of them: a sure match by its plays, every
//! other by what both sides expect; totals by the spans of the lines, and ranks by the totals.
#![tactic(auto)]

mod entrant;
mod entries;
pub mod laws;
mod lines;
pub mod lowering;
mod pairing;
mod sureness;
mod tournament;

pub use entrant::Entrant;
pub use entries::{entry_grid, entry_line, entry_totals};
pub use lines::match_line;
pub use result_lines::{
    EntryLine, EntryLines, MatchLines, Rank, Totals, rank_of, ranks, total_of, undecided_of,
    wins_of,
};
pub use sheet_rules::Contestant;
pub use tournament::totals;
