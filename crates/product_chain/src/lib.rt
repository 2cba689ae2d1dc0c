//! Expected scores of matches in which moves are drawn by lot or flipped: a chain over all pairs of
//! rows of two automata, computed turn by turn, with ends that hold the exact fraction.
//!
//! A cell holds what one side expects of the turns that are to come, from a pair of rows, in parts of a
//! point. A turn draws twice: first the other's move, for each pair of rows that a move of the side can
//! lead to (a fork, which many rows may share), and then the side's own.
#![tactic(auto)]

mod course;
mod divide;
mod estimate;
mod scale;
mod scores;
mod side;
mod slim;
mod sure;
mod units;
mod wide;

pub use scores::expect;
