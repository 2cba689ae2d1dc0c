//! The lines of reports: one typed value for each kind of line, and its text.
#![tactic(auto)]

mod laws;
mod line;
mod payoffs;
mod reading;
mod writing;

pub use laws::lines_are_exact;
pub use line::{Kind, Line, ShownEntry, ShownFirst, ShownGame, ShownHead, ShownMatch, ShownOwn};
pub use reading::line_of;
pub use writing::push_line;
