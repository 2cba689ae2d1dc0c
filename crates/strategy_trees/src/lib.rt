//! Strategy trees against an automaton: laws of what no strategy exceeds, and of what a plan or a
//! lasso attains, in a number of turns or in any. A strategy may draw lots and remember everything.
//!
//! Nothing here is computed. Solvers and checkers of best responses cite these laws.
#![tactic(auto)]

mod laws;

pub use laws::{
    bounds_are_lowered, lassos_score, lowers_are_attained, means_are_lowered, offset_lowers_trees,
    plans_are_trees, potentials_bound_trees, scores_are_lowered, strategies_are_trees,
    uppers_bound_trees,
};
