//! A law about the definitions: the contract of the function is the law, and its body does nothing.
ghost use Rattle.player_core.specs.Rule.{FollowsRule};

use player_core::Kind;

/// After every history a table's automaton, walked from its start, has the weight that the table
/// gives: one opening after the other up to its depth, and then the entry of the plays that it looks
/// at, as the history has them.
pub fn tables_follow_their_rule()
    ensures { FollowsRule Kind.Lookup }
{}
