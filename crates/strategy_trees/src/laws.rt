//! Laws about strategy trees: the contract of each function is one law, and its body calls the laws
//! on which it rests.
ghost use Rattle.strategy_trees.specs.Bounds.{BoundsAreLowered, LowersAreAttained, OffsetLowersTrees, UppersBoundTrees};
ghost use Rattle.strategy_trees.specs.Lassos.{LassosScore, MeansAreLowered, ScoresAreLowered};
ghost use Rattle.strategy_trees.specs.Potentials.{PotentialsBoundTrees};
ghost use Rattle.strategy_trees.specs.Strategies.{PlansAreTrees, StrategiesAreTrees};

use history_model::{automata_are_weighed, masses_add_up, offset_lowers};

/// Every strategy that chooses by fractions is a strategy tree.
pub fn strategies_are_trees()
    ensures { StrategiesAreTrees }
{}

/// The tree of a plan is a strategy tree.
pub fn plans_are_trees()
    ensures { PlansAreTrees }
{}

/// No strategy tree expects more than the uppers of a backward induction over rows.
pub fn uppers_bound_trees()
    ensures { UppersBoundTrees }
{
    automata_are_weighed();
    masses_add_up();
    offset_lowers();
}

/// The tree of a plan expects at least the lowers of a backward induction over rows.
pub fn lowers_are_attained()
    ensures { LowersAreAttained }
{
    automata_are_weighed();
    masses_add_up();
    offset_lowers();
}

/// An offset lowers what every tree expects by itself in each turn.
pub fn offset_lowers_trees()
    ensures { OffsetLowersTrees }
{
    automata_are_weighed();
    offset_lowers();
}

/// Bounds in a number of turns are lowered by the offset in each turn.
pub fn bounds_are_lowered()
    ensures { BoundsAreLowered }
{
    plans_are_trees();
    offset_lowers_trees();
}

/// Potentials bound what every tree expects, in any number of turns, where nothing is left to chance.
pub fn potentials_bound_trees()
    ensures { PotentialsBoundTrees }
{
    automata_are_weighed();
    masses_add_up();
    offset_lowers();
    bounds_are_lowered();
}

/// The score of a list of own moves is its points, less the offset for each move.
pub fn scores_are_lowered()
    ensures { ScoresAreLowered }
{}

/// Potentials and lassos for a mean are those for the mean less the offset.
pub fn means_are_lowered()
    ensures { MeansAreLowered }
{
    scores_are_lowered();
}

/// What a lasso scores in any number of turns.
pub fn lassos_score()
    ensures { LassosScore }
{
    scores_are_lowered();
}
