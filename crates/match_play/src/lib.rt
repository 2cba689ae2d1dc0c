//! Matches between players in boxes: sure ones are played, long ones by their cycle, and of all others
//! the players are read. The players tell which ones are sure.
#![tactic(auto)]

mod grids;
mod long;
mod long_on_bench;
mod on_bench;
mod sureness;
mod trail;
mod turn_by_turn;

pub use grids::{tabulate_sheet, tabulate_sheets};
pub use history_model::Tally;
pub use long::play_long;
pub use long_on_bench::play_sheets_long;
pub use on_bench::play_sheets;
pub use result_lines::MatchLine;
pub use sureness::is_sure_on;
pub use trail::Trail;
pub use turn_by_turn::play;
