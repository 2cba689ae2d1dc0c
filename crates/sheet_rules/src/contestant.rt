//! Who takes part in a match or a tournament.
use history_model::Noise;
use player_core::Sheet;

/// An entrant: the sheet that it plays, and the chance with which its moves are flipped.
#[derive(Clone, Copy)]
pub struct Contestant<'a> {
    pub sheet: &'a Sheet,
    pub noise: &'a Noise,
}
