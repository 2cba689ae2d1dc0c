//! A match, played turn by turn.
ghost use Rattle.std.specs.Prelude.{◌≡◌, ◌+◌, ◌^◌, ◌≤◌};
ghost use Rattle.history_model.specs.Automaton.{IsSure};
ghost use Rattle.history_model.specs.History.{turned};
ghost use Rattle.history_model.specs.Path.{match_path, sure_move, sure_play};
ghost use Rattle.history_model.specs.Tally.{counts, total};
ghost use Rattle.player_core.specs.State.{IsState, advanced, at_start, more};
ghost use Rattle.match_play.specs.Cycle.{both, led_on, next_plays};
ghost use Rattle.match_play.specs.Match.{after_match};

use history_model::{Move, Play, Tally};
use player_core::{Player, restart};

/// Plays a match of at most 10^12 turns between two players whose automata are sure, and counts the
/// plays as the left player sees them. Both players are resumed at their starts first, wherever they
/// stood, and are then advanced once a turn. Takes no memory.
pub fn play(left: &mut Box<dyn Player>, right: &mut Box<dyn Player>, turns: u64) -> Tally
    requires sure_left { IsSure (state left.old).lasting.automaton }
    requires sure_right { IsSure (state right.old).lasting.automaton }
    requires turns { turns ≤ 10 ^ 12 }
    ensures tally { result ≡ counts (match_path (state left.old).lasting.automaton (state right.old).lasting.automaton turns) }
    ensures total { total result ≡ turns }
    ensures left { state left.new ≡ after_match (state left.old) (match_path (state left.old).lasting.automaton (state right.old).lasting.automaton turns) }
    ensures right { state right.new ≡ after_match (state right.old) (turned (match_path (state left.old).lasting.automaton (state right.old).lasting.automaton turns)) }
    ensures left_lasting { (state left.new).lasting ≡ (state left.old).lasting }
    ensures right_lasting { (state right.new).lasting ≡ (state right.old).lasting }
    ensures left_turns { (state left.new).turns ≡ more (state left.old).turns turns }
    ensures right_turns { (state right.new).turns ≡ more (state right.old).turns turns }
    ensures left_valid { IsState (state left.old) }
    ensures right_valid { IsState (state right.old) }
{
    restart(left);
    restart(right);
    go_on(left, right, Tally::new(), turns)
}

// Plays some turns more from where the two stand, after the plays that are counted already.
pub(crate) fn go_on(
    left: &mut Box<dyn Player>,
    right: &mut Box<dyn Player>,
    counted: Tally,
    turns: u64,
) -> Tally
    requires { total counted + turns ≤ 10 ^ 12 }
    ensures tally { result ≡ both counted (counts (next_plays (state left.old) (state right.old) turns)) }
    ensures total { total result ≡ total counted + turns }
    ensures left { state left.new ≡ led_on (state left.old) (next_plays (state left.old) (state right.old) turns) turns }
    ensures right { state right.new ≡ led_on (state right.old) (turned (next_plays (state left.old) (state right.old) turns)) turns }
    ensures left_valid { IsState (state left.old) }
    ensures right_valid { IsState (state right.old) }
{
    let left_den = left.den();
    let right_den = right.den();
    let mut tally = counted;
    for _turn in 0..turns {
        let play = step(left, left_den, right, right_den);
        tally.count(play.mine, play.theirs);
    }
    tally
}

// One turn from where the two stand, and what they played in it as the left one sees it.
pub(crate) fn step(
    left: &mut Box<dyn Player>,
    left_den: u32,
    right: &mut Box<dyn Player>,
    right_den: u32,
) -> Play
    requires left_den { left_den ≡ (state left.old).lasting.automaton.den }
    requires right_den { right_den ≡ (state right.old).lasting.automaton.den }
    ensures play { result ≡ sure_play (state left.old).lasting.automaton (state left.old).mark (state right.old).lasting.automaton (state right.old).mark }
    ensures left { state left.new ≡ advanced (state left.old) result.mine result.theirs }
    ensures right { state right.new ≡ advanced (state right.old) result.theirs result.mine }
{
    let play = Play {
        mine: choose(left, left_den),
        theirs: choose(right, right_den),
    };
    left.advance(play.mine, play.theirs);
    right.advance(play.theirs, play.mine);
    play
}

// The move of a player whose automaton has this denominator: C exactly where the weight is all of it.
fn choose(player: &Box<dyn Player>, den: u32) -> Move
    requires { den ≡ (state player.now).lasting.automaton.den }
    ensures { result ≡ sure_move (state player.now).lasting.automaton (state player.now).mark }
{
    if player.weight() == den {
        Move::C
    } else {
        Move::D
    }
}
