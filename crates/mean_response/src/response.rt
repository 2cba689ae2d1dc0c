//! The greatest mean, its potentials, and a lasso that attains it.
ghost use Rattle.std.specs.Prelude.{◌≡◌, ℕ, ◌+◌, ◌^◌, ◌<◌, ◌≤◌, length, IfOk, slice_index_or, ℤ, pos, Option, Some};
ghost use Rattle.history_model.specs.Automaton.{IsSure};
ghost use Rattle.history_model.specs.Mean.{ArePotentials, HasMean, IsLasso};
ghost use Rattle.mean_response.specs.Graph.{opponent_of, game_of, IsGraph};
ghost use Rattle.mean_response.specs.Means.{potential_at, AreGreatest, AreInRange, AreLowest, BoundsTrees, IsMean, LassoScores};
ghost use Rattle.mean_response.specs.Walks.{HasPotential, IsLowest, IsTurned};

use crate::graph::{Graph, graph_of};
use crate::lasso::{turn_of, walk_to};
use crate::potentials::potentials_of;
use crate::ratio::{highest, lowest};
use crate::table::table_of;
use history_model::{Game, Grid, Move, NoMemory};
use std::alloc::Global;
use strategy_trees::{lassos_score, potentials_bound_trees, scores_are_lowered};

/// The greatest mean `num`/`den` of points a turn, for each row of the opponent its potential (None
/// where no own moves lead to it), and a lasso: own moves that lead from the start to a row, and a
/// cycle of own moves from there back to it.
#[derive(Debug, Drop)]
pub struct MeanResponse {
    pub num: i64,
    pub den: i64,
    pub potentials: Vec<Option<i64>>,
    pub path: Vec<Move>,
    pub cycle: Vec<Move>,
}

// What the search finds.
#[derive(Drop)]
struct Found {
    num: u64,
    den: u64,
    potentials: Vec<Option<i64>>,
    path: Vec<Move>,
    cycle: Vec<Move>,
}

// A number as a signed one.
fn signed(x: u64) -> i64
    requires { x ≤ 10 ^ 9 }
    ensures { result ≡ pos x }
{
    x as i64
}

fn search(alloc: Global, graph: &Graph) -> Result<Found, NoMemory>
    requires { IsGraph graph.now }
    ensures lowest { IfOk result (λ found. IsLowest found.num found.den) }
    ensures num_few { IfOk result (λ found. found.num ≤ 10 ^ 9) }
    ensures den_few { IfOk result (λ found. found.den ≤ length (opponent_of graph.now).rows) }
    ensures size { IfOk result (λ found. length found.potentials.items ≡ length (opponent_of graph.now).rows) }
    ensures each { IfOk result (λ found. (row : ℕ) (d : Option ℤ) → row < length (opponent_of graph.now).rows → HasPotential (opponent_of graph.now) (game_of graph.now) found.num found.den row (slice_index_or found.potentials.items row d)) }
    ensures lasso { IfOk result (λ found. IsTurned (opponent_of graph.now) (game_of graph.now) found.num found.den found.path.items found.cycle.items) }
{
    let table = table_of(alloc, graph)?;
    let peak = highest(&table, graph);
    let ratio = lowest(peak.num, peak.den);
    let potentials = potentials_of(alloc, &table, graph, ratio.num, ratio.den)?;
    let moves = walk_to(alloc, &table, graph, peak.at)?;
    let turn = turn_of(alloc, graph, &moves)?;
    let path = Vec::from_slice(alloc, &moves[..turn.first])?;
    let cycle = Vec::from_slice(alloc, &moves[turn.first..turn.second])?;
    Ok(Found {
        num: ratio.num,
        den: ratio.den,
        potentials,
        path,
        cycle,
    })
}

/// The greatest mean score of a response to a sure automaton, in lowest terms. A row's potential is the
/// greatest of `den` times the points, less `num` for each move, of all own moves that lead to it; none
/// is beyond 10^15. In any number of turns `den` times what a strategy of any memory expects is at most
/// `num` for each turn and the greatest potential, and the lasso, whose path and cycle have together no
/// more moves than there are rows, scores `num` for each turn, less a bounded number.
///
/// # Errors
///
/// `NoMemory` where the tables find no memory.
pub fn mean(alloc: Global, grid: &Grid, game: &Game) -> Result<MeanResponse, NoMemory>
    requires { IsSure grid.now }
    ensures lowest { IfOk result (λ r. AreLowest r.num r.den) }
    ensures num { IfOk result (λ r. IsMean grid.now game.now r.num r.den) }
    ensures size { IfOk result (λ r. length r.potentials.items ≡ length grid.now.rows) }
    ensures greatest { IfOk result (λ r. AreGreatest grid.now game.now r.num r.den (potential_at r.potentials.items)) }
    ensures start { IfOk result (λ r. potential_at r.potentials.items grid.now.start ≡ Some (pos 0)) }
    ensures in_range { IfOk result (λ r. AreInRange r.potentials.items) }
    ensures potentials { IfOk result (λ r. ArePotentials grid.now game.now 0 r.num r.den (potential_at r.potentials.items)) }
    ensures lasso { IfOk result (λ r. IsLasso grid.now r.path.items r.cycle.items) }
    ensures mean { IfOk result (λ r. HasMean grid.now game.now 0 r.path.items r.cycle.items r.num r.den) }
    ensures short { IfOk result (λ r. length r.path.items + length r.cycle.items ≤ length grid.now.rows) }
    ensures bounds_trees { IfOk result (λ r. BoundsTrees grid.now game.now r.num r.den (potential_at r.potentials.items)) }
    ensures lasso_scores { IfOk result (λ r. LassoScores grid.now game.now r.num r.den r.path.items r.cycle.items) }
{
    potentials_bound_trees();
    scores_are_lowered();
    lassos_score();
    let graph = graph_of(alloc, grid, game)?;
    let found = search(alloc, &graph)?;
    Ok(MeanResponse {
        num: signed(found.num),
        den: signed(found.den),
        potentials: found.potentials,
        path: found.path,
        cycle: found.cycle,
    })
}
