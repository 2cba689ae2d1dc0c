//! Players in boxes: the sheets that they take, what their calls do, and the bench they sit at.
#![tactic(auto)]

mod bench;
mod kind;
pub mod laws;
mod names;
mod places;
mod player;
mod reading;
mod sheet;
mod sheet_player;
mod side;

pub use bench::{Bench, PlugNote, Seen};
pub use kind::Kind;
pub use names::no_name;
pub use places::{load_place, restart};
pub use player::{Player, Seats, Side};
pub use reading::{is_sure, tabulate};
pub use sheet::Sheet;
pub use sheet_player::{Front, ROOM, SheetPlayer, SheetRows};
