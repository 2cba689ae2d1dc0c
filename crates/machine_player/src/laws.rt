//! A law about the definitions: the contract of the function is the law, and its body does nothing.
ghost use Rattle.player_core.specs.Rule.{FollowsRule};

use player_core::Kind;

/// After every history a machine's automaton, walked from its start, has the weight 1 or 0 as the
/// machine plays C or D there, by what it heard alone.
pub fn machines_follow_their_rule()
    ensures { FollowsRule Kind.Machine }
{}
