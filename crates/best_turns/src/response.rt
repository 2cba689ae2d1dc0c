//! The best response.
ghost use Rattle.std.specs.Prelude.{◌≡◌, ◌*◌, ◌≤◌, ◌<◌, pos, length, IfOk};
ghost use Rattle.fixed_span.specs.Span.{score_units, IsWithin};
ghost use Rattle.strategy_trees.specs.Contest.{contest, rows, IsSureContest};
ghost use Rattle.strategy_trees.specs.Bounds.{AreLowers, AreUppers, NoTreeExceeds, PlanAttains};
ghost use Rattle.strategy_trees.specs.Cells.{cell_at, move_at};
ghost use Rattle.best_turns.specs.Meeting.{contest_of, IsPrepared};
ghost use Rattle.best_turns.specs.Rounded.{lower_of, upper_of, AreFound};
ghost use Rattle.best_turns.specs.Response.{AreCells, AreNarrow, IsExact, IsValue};

use crate::induction::{Found, find};
use crate::meeting::{Meeting, Prepared, prepare};
use fixed_span::Span;
use history_model::{Game, Grid, Move, NoMemory, Noise};
use std::alloc::Global;
use strategy_trees::{lowers_are_attained, uppers_bound_trees};

/// A best response in a number of turns, in units of 10^-12 of a point. With t turns left and the
/// opponent at a row, the own move and the bounds of what is still to come stand at
/// (t - 1)·rows + row; `value` holds the bounds at the start.
#[derive(Debug, Drop)]
pub struct Response {
    pub value: Span,
    pub moves: Vec<Move>,
    pub uppers: Vec<i128>,
    pub lowers: Vec<i128>,
}

// The bounds at the start.
fn value_of(prepared: &Prepared, found: &Found, turns: u32) -> Span
    requires prepared { IsPrepared prepared.now }
    requires some { 1 ≤ turns }
    requires few { turns ≤ 2000 }
    requires found { AreFound (contest_of prepared.now) (turns * rows (contest_of prepared.now)) found.now }
    ensures lo { result.lo ≡ pos (lower_of (contest_of prepared.now) turns (contest_of prepared.now).opponent.start) }
    ensures hi { result.hi ≡ pos (upper_of (contest_of prepared.now) turns (contest_of prepared.now).opponent.start) }
{
    let opponent = prepared.meeting.opponent;
    let last = (turns - 1) as usize * prepared.stances.len() + opponent.start as usize;
    Span {
        lo: found.lowers[last],
        hi: found.uppers[last],
    }
}

/// The best response to an automaton in `turns` turns, 1 to 2000. `own_noise` flips the responder's
/// moves, `noise` the opponent's. No strategy of any memory expects more than the upper end of the
/// value, and the moves expect at least its lower end; it is at most `turns` units wide, and a point
/// where the opponent draws no lots and no move is flipped. There a move is C exactly where C attains
/// at least as much as D.
///
/// # Errors
///
/// `NoMemory` where the tables find no memory.
pub fn best(
    alloc: Global,
    grid: &Grid,
    game: &Game,
    own_noise: &Noise,
    noise: &Noise,
    turns: u32,
) -> Result<Response, NoMemory>
    requires some_turns { 1 ≤ turns }
    requires few_turns { turns ≤ 2000 }
    ensures uppers { IfOk result (λ r. AreCells (contest own_noise.now grid.now noise.now game.now) turns r.uppers.items) }
    ensures lowers { IfOk result (λ r. AreCells (contest own_noise.now grid.now noise.now game.now) turns r.lowers.items) }
    ensures moves { IfOk result (λ r. length r.moves.items ≡ turns * length grid.now.rows) }
    ensures value { IfOk result (λ r. IsValue (contest own_noise.now grid.now noise.now game.now) turns r.lowers.items r.uppers.items r.value) }
    ensures no_tree_exceeds { IfOk result (λ r. NoTreeExceeds (contest own_noise.now grid.now noise.now game.now) 0 turns score_units r.value.hi) }
    ensures plan_attains { IfOk result (λ r. PlanAttains (contest own_noise.now grid.now noise.now game.now) (move_at r.moves.items (length grid.now.rows)) 0 turns score_units r.value.lo) }
    ensures width { IfOk result (λ r. IsWithin turns r.value) }
    ensures point { IsSureContest (contest own_noise.now grid.now noise.now game.now) → IfOk result (λ r. r.value.lo ≡ r.value.hi) }
    ensures narrow { IfOk result (λ r. AreNarrow (contest own_noise.now grid.now noise.now game.now) turns r.lowers.items r.uppers.items) }
    ensures uppers_pass { IfOk result (λ r. AreUppers (contest own_noise.now grid.now noise.now game.now) score_units turns (cell_at r.uppers.items (length grid.now.rows))) }
    ensures lowers_pass { IfOk result (λ r. AreLowers (contest own_noise.now grid.now noise.now game.now) score_units turns (move_at r.moves.items (length grid.now.rows)) (cell_at r.lowers.items (length grid.now.rows))) }
    ensures exact { IsSureContest (contest own_noise.now grid.now noise.now game.now) → IfOk result (λ r. IsExact (contest own_noise.now grid.now noise.now game.now) turns r.moves.items r.lowers.items r.uppers.items) }
{
    uppers_bound_trees();
    lowers_are_attained();
    let meeting = Meeting {
        own_noise,
        opponent: grid,
        noise,
        game,
    };
    let prepared = prepare(alloc, &meeting)?;
    let found = find(alloc, &prepared, turns)?;
    Ok(Response {
        value: value_of(&prepared, &found, turns),
        moves: found.moves,
        uppers: found.uppers,
        lowers: found.lowers,
    })
}
