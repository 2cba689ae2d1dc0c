//! A law, proved once: a caller has it by calling its function, which does nothing.
ghost use Rattle.sheet_rules.specs.Laws.{EntrantsFollowTheirRules};

use history_model::{path_is_one, weights_decide};
use lookup_player::tables_follow_their_rule;
use machine_player::machines_follow_their_rule;
use memory_player::vectors_follow_their_rule;

/// What an entrant plays on a bench chooses, after every history, by the rule of its sheet. So it expects
/// what the entrant does, and two that leave nothing to chance play the one history that follows both rules.
pub fn entrants_follow_their_rules()
    ensures { EntrantsFollowTheirRules }
{
    vectors_follow_their_rule();
    machines_follow_their_rule();
    tables_follow_their_rule();
    weights_decide();
    path_is_one();
}
