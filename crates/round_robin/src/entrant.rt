//! Who takes part in a match.
use history_model::Noise;
use player_core::Sheet;

/// One side of a match: the place of its entry among all entries, the sheet that it plays, and the
/// chance with which its moves are flipped.
#[derive(Clone, Copy)]
pub struct Entrant<'a> {
    pub place: u32,
    pub sheet: &'a Sheet,
    pub noise: Noise,
}
