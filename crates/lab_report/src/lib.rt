//! Reports, and their texts both ways: read, written whole, and written piece by piece. What a report is,
//! what makes it valid and how it is read stands in `report_rules`, whose types and calls this crate passes on.
#![tactic(auto)]

mod lines;
mod pieces;
mod writing;

pub use pieces::Pieces;
pub use report_rules::{
    Body, Head, Leaders, Names, Noises, Places, Report, ReportError, drill_game, names_grow,
    no_noise, one_report_a_text, place_in, read_report,
};
pub use writing::write_report;
