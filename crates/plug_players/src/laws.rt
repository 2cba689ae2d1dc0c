//! Laws about the built-ins: the contract of each function is one law, and its body does nothing.
ghost use Rattle.plug_players.specs.Builtin.{BuiltinsAreSure, BuiltinsFollowTheirRules};

/// After every history the automaton of a built-in, walked from its start, has the weight 1 exactly
/// where the rule of that built-in says C, and else the weight 0.
pub fn builtins_follow_their_rules()
    ensures { BuiltinsFollowTheirRules }
{}

/// Every weight of a built-in is 0 or the denominator.
pub fn builtins_are_sure()
    ensures { BuiltinsAreSure }
{}
