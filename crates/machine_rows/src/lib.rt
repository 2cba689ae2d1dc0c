//! The rows of a finite machine, read one by one, and the sheet that they make.
#![tactic(auto)]

pub mod laws;
mod machine;
mod sheet;
mod states;
mod transition;

pub use machine::MachineRows;
pub use transition::Transition;
