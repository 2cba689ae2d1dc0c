//! Reports, their texts, and the reader of these.
#![tactic(auto)]

mod drill_rules;
mod match_rules;
mod own_rules;
mod reading;
mod report;
mod rules;
mod state;
mod table;
mod table_rules;

pub use drill_rules::{drill_game, no_noise};
pub use reading::{ReportError, one_report_a_text, read_report};
pub use report::{Body, Head, Report};
pub use report_names::{Leaders, Names, Noises, Places, names_grow, place_in};
