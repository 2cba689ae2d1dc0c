//! What is told of a match.
use fixed_span::Span;
use history_model::Tally;

/// A match of the entries at two places: how many turns, what the two scored in units of 10^-12, and,
/// exactly where the match is sure, how often each play came.
#[derive(Clone, Copy, Debug, PartialEq, Eq)]
pub struct MatchLine {
    pub left: u32,
    pub right: u32,
    pub turns: u64,
    pub left_score: Span,
    pub right_score: Span,
    pub tally: Option<Tally>,
}
