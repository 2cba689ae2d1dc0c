//! Laws about the definitions: the contract of each function is one law, and its body does nothing.
ghost use Rattle.history_model.specs.Expectation.{AutomataAreWeighed, HistoriesAgreeWithRows, MassesAddUp, OffsetLowers, SidesAreAlike, WeightsDecide};
ghost use Rattle.history_model.specs.Path.{PathIsOne};
ghost use Rattle.history_model.specs.Tally.{CountsArePaid};
ghost use Rattle.history_model.specs.Tree.{PlanIsFollowed};

/// The path of a match is the one history in which every move follows both automata.
pub fn path_is_one()
    ensures { PathIsOne }
{}

/// A history's counts are as many as its plays, and are paid as the history is.
pub fn counts_are_paid()
    ensures { CountsArePaid }
{}

/// An automaton chooses by weights up to its denominator.
pub fn automata_are_weighed()
    ensures { AutomataAreWeighed }
{}

/// The weights of all histories of n plays add up to the n-th power of the denominator of one play.
pub fn masses_add_up()
    ensures { MassesAddUp }
{}

/// An expectation with an offset is the one without it, less the offset for each turn.
pub fn offset_lowers()
    ensures { OffsetLowers }
{}

/// The sum over all histories is the recursion over pairs of rows.
pub fn histories_agree_with_rows()
    ensures { HistoriesAgreeWithRows }
{}

/// What the second player expects is what the first expects of the payoffs to the other.
pub fn sides_are_alike()
    ensures { SidesAreAlike }
{}

/// The tree of a plan intends the plan's move after each history.
pub fn plan_is_followed()
    ensures { PlanIsFollowed }
{}

/// Players that choose alike after each history expect alike.
pub fn weights_decide()
    ensures { WeightsDecide }
{}
