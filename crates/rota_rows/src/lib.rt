//! Matches that are played in slices: where each stands, the two lines that show it, and the law that a
//! match goes on as if nothing had come between.
#![tactic(auto)]

mod laws;
mod lines;
mod row;

pub use history_model::Tally;
pub use laws::{rota_lines_are_exact, rotas_go_on};
pub use lines::{
    ShownRow, ShownScores, are_scores, both_scores_of, count_of, is_count, is_row, name_of,
    push_row, push_scores, row_of, tally_of,
};
pub use row::{RotaRow, RotaRows};
