//! What a checkpoint must show.
use history_model::Name;

/// A match that a checkpoint must show: the places of its two entries, their names, and how many rows the
/// automata have that they play.
#[derive(Clone, Copy)]
pub struct ExpectedMatch {
    pub left: u32,
    pub right: u32,
    pub left_name: Name,
    pub right_name: Name,
    pub left_rows: u32,
    pub right_rows: u32,
}
