//! A long match: as soon as a pair of rows comes again, whole cycles are counted and not played.
ghost use Rattle.std.specs.Prelude.{◌≡◌, ◌+◌, ◌*◌, ◌%◌, ◌^◌, ◌≤◌, ◌<◌, length};
ghost use Rattle.history_model.specs.Automaton.{IsSure};
ghost use Rattle.history_model.specs.History.{turned};
ghost use Rattle.history_model.specs.Path.{match_path};
ghost use Rattle.history_model.specs.Tally.{counts, total};
ghost use Rattle.player_core.specs.State.{IsState};
ghost use Rattle.match_play.specs.Cycle.{HasGoneOn, IsCycle, both, led_on, next_plays, times};
ghost use Rattle.match_play.specs.Followed.{HasFollowed};
ghost use Rattle.match_play.specs.Trail.{place_of_pair};

use crate::grids::rows_of;
use crate::trail::{Mark, NO_MARK, Trail};
use crate::turn_by_turn::{go_on, step};
use history_model::Tally;
use player_core::{Player, restart};

/// Plays a match as `play` does, but with at most two advances a side for each pair of rows, however
/// many turns it has. Where a pair of rows comes again, all that follows comes again as well: from there
/// whole cycles are counted, and only what is left of a cycle is played. So both players end where the
/// match leads. Takes no memory, and leaves the trail's room as it is.
pub fn play_long(
    trail: &mut Trail,
    left: &mut Box<dyn Player>,
    right: &mut Box<dyn Player>,
    turns: u64,
) -> Tally
    requires sure_left { IsSure (state left.old).lasting.automaton }
    requires sure_right { IsSure (state right.old).lasting.automaton }
    requires turns { turns ≤ 10 ^ 12 }
    requires room { length (state left.old).lasting.automaton.rows * length (state right.old).lasting.automaton.rows ≤ trail.old }
    ensures tally { result ≡ counts (match_path (state left.old).lasting.automaton (state right.old).lasting.automaton turns) }
    ensures total { total result ≡ turns }
    ensures followed { HasFollowed (state left.old) (state right.old) (state left.new) (state right.new) turns }
    ensures room { trail.new ≡ trail.old }
    ensures left_lasting { (state left.new).lasting ≡ (state left.old).lasting }
    ensures right_lasting { (state right.new).lasting ≡ (state right.old).lasting }
    ensures left_valid { IsState (state left.old) }
    ensures right_valid { IsState (state right.old) }
{
    restart(left);
    restart(right);
    let rows = rows_of(left) as usize;
    let columns = rows_of(right) as usize;
    follow(&mut trail.marks[..rows * columns], left, right, turns)
}

// Plays some turns from where the two stand, with a mark for each pair of their rows.
fn follow(
    marks: &mut [Mark],
    left: &mut Box<dyn Player>,
    right: &mut Box<dyn Player>,
    turns: u64,
) -> Tally
    requires turns { turns ≤ 10 ^ 12 }
    requires room { length marks.old ≡ length (state left.old).lasting.automaton.rows * length (state right.old).lasting.automaton.rows }
    requires few { length marks.old < 2 ^ 20 }
    requires left_valid { IsState (state left.old) }
    requires right_valid { IsState (state right.old) }
    ensures tally { result ≡ counts (next_plays (state left.old) (state right.old) turns) }
    ensures followed { HasGoneOn (state left.old) (state right.old) (state left.new) (state right.new) turns }
{
    marks.fill(NO_MARK);
    let columns = rows_of(right) as usize;
    let left_den = left.den();
    let right_den = right.den();
    let mut tally = Tally::new();
    for turn in 0..turns {
        let place = place_of_pair(left, right, columns);
        let mark = marks[place];
        if mark.turn != 0 {
            let long = turn + 1 - mark.turn as u64;
            let once = mark.since(tally, long);
            return by_cycle(left, right, tally, long, once, turns - turn);
        }
        marks[place] = Mark::new(turn, tally);
        let play = step(left, left_den, right, right_den);
        tally.count(play.mine, play.theirs);
    }
    tally
}

// Plays some turns more from where the two stand, to which they come back after each cycle: whole
// cycles are counted, and what is left of one is played.
fn by_cycle(
    left: &mut Box<dyn Player>,
    right: &mut Box<dyn Player>,
    counted: Tally,
    long: u64,
    once: Tally,
    turns: u64,
) -> Tally
    requires cycle { IsCycle (state left.old) (state right.old) long once }
    requires few { total counted + turns ≤ 10 ^ 12 }
    ensures tally { result ≡ both counted (counts (next_plays (state left.old) (state right.old) turns)) }
    ensures left { state left.new ≡ led_on (state left.old) (next_plays (state left.old) (state right.old) turns) (turns % long) }
    ensures right { state right.new ≡ led_on (state right.old) (turned (next_plays (state left.old) (state right.old) turns)) (turns % long) }
{
    let tally = grown(counted, once, turns / long);
    go_on(left, right, tally, turns % long)
}

// A tally with the plays of some cycles more.
fn grown(tally: Tally, once: Tally, cycles: u64) -> Tally
    requires { total tally + cycles * total once ≤ 10 ^ 12 }
    ensures { result ≡ both tally (times cycles once) }
{
    Tally {
        cc: tally.cc + cycles * once.cc,
        cd: tally.cd + cycles * once.cd,
        dc: tally.dc + cycles * once.dc,
        dd: tally.dd + cycles * once.dd,
    }
}

// The place of the mark of the pair of rows at which the two stand.
fn place_of_pair(left: &Box<dyn Player>, right: &Box<dyn Player>, columns: usize) -> usize
    requires { columns ≡ length (state right.now).lasting.automaton.rows }
    ensures place { result ≡ place_of_pair columns (state left.now).mark (state right.now).mark }
    ensures within { result < length (state left.now).lasting.automaton.rows * length (state right.now).lasting.automaton.rows }
    ensures left_valid { IsState (state left.now) }
    ensures right_valid { IsState (state right.now) }
{
    let row = row_of(left) as usize;
    let column = row_of(right) as usize;
    row * columns + column
}

// The row at which a player stands.
fn row_of(player: &Box<dyn Player>) -> u32
    ensures row { result ≡ (state player.now).mark }
    ensures valid { IsState (state player.now) }
{
    player.save()
}
