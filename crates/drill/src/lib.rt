//! The drill of a number: 64 machines that are drawn from it, and their names.
#![tactic(auto)]

mod draws;
mod laws;
mod machines;
mod names;

pub use laws::drill_names_differ;
pub use machines::drill_sheets;
pub use names::drill_name;
