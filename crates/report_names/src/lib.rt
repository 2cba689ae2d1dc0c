//! The names of a report, each once and in order of first appearance, and the small lists of reports.
#![tactic(auto)]

mod laws;
mod lists;
mod names;
mod own;

pub use laws::names_grow;
pub use lists::{Leaders, Noises, Places};
pub use names::{Names, place_in};
pub use own::OwnNoises;
