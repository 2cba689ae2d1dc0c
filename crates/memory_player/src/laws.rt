//! A law about the definitions: the contract of the function is the law, and its body does nothing.
ghost use Rattle.player_core.specs.Rule.{FollowsRule};

use player_core::Kind;

/// After every history a vector's automaton, walked from its start, has the weight that the vector
/// gives the last play, or its opening where nothing was played.
pub fn vectors_follow_their_rule()
    ensures { FollowsRule Kind.MemoryOne }
{}
