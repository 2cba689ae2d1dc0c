//! The top call of the program: it reads the words and the lab, does what they ask for, and writes
//! the report.
#![tactic(auto)]

mod load;
mod output;
mod run;
mod second;
mod sending;
mod status;
mod telling;
mod words;
mod world;

pub use run::axlab;
pub use status::Status;
pub use words::Form;
pub use world::Watched;
