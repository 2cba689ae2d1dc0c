//! A walk of R moves to the row of the greatest mean, and the turn in it.
ghost use Rattle.std.specs.Prelude.{◌≡◌, ◌+◌, ◌-◌, ◌^◌, ◌<◌, ◌≤◌, ◌↔◌, length, IfOk, IsTrue};
ghost use Rattle.history_model.specs.Mean.{step};
ghost use Rattle.mean_response.specs.Graph.{opponent_of, game_of, IsGraph};
ghost use Rattle.mean_response.specs.Turns.{IsFull, IsTurn};
ghost use Rattle.mean_response.specs.Walks.{best_at, gain, layers_of, IsTable};

use crate::graph::Graph;
use crate::table::best;
use history_model::{Move, NoMemory};
use std::alloc::Global;

/// A move from a row.
#[derive(Clone, Copy)]
pub struct Edge {
    pub from: usize,
    pub by: Move,
}

/// Two places of a walk at which it stands at one row.
#[derive(Clone, Copy)]
pub struct Turn {
    pub first: usize,
    pub second: usize,
}

// Whether the move at a row leads to another row and makes its number there.
fn fits(graph: &Graph, low: u64, row: usize, mine: Move, to: usize, x: u64) -> bool
    requires graph { IsGraph graph.now }
    requires row { row < length (opponent_of graph.now).rows }
    requires low { low ≤ 10 ^ 9 }
    ensures { IsTrue result ↔ ((0 < low) × (step (opponent_of graph.now) row mine ≡ to) × (x ≡ low + gain (opponent_of graph.now) (game_of graph.now) row mine)) }
{
    let exit = graph.exit(row, mine);
    low > 0 && exit.to as usize == to && x == low + exit.points
}

// The last of `moves` + 1 moves to a row.
fn before(table: &Vec<Vec<u64>>, graph: &Graph, moves: usize, to: usize) -> Edge
    requires graph { IsGraph graph.now }
    requires table { IsTable (opponent_of graph.now) (game_of graph.now) (layers_of table.now.items) }
    requires moves { moves < length (opponent_of graph.now).rows }
    requires to { to < length (opponent_of graph.now).rows }
    requires some { 0 < best_at (layers_of table.now.items) (moves + 1) to }
    ensures inside { result.from < length (opponent_of graph.now).rows }
    ensures leads { step (opponent_of graph.now) result.from result.by ≡ to }
    ensures some { 0 < best_at (layers_of table.now.items) moves result.from }
    ensures value { best_at (layers_of table.now.items) (moves + 1) to ≡ best_at (layers_of table.now.items) moves result.from + gain (opponent_of graph.now) (game_of graph.now) result.from result.by }
{
    let x = best(table, graph, moves + 1, to);
    for row in 0..graph.len() {
        let low = best(table, graph, moves, row);
        if fits(graph, low, row, Move::C, to, x) {
            return Edge {
                from: row,
                by: Move::C,
            };
        }
        if fits(graph, low, row, Move::D, to, x) {
            return Edge {
                from: row,
                by: Move::D,
            };
        }
    }
    unreachable!()
}

/// R moves from the start to a row, that make its number in the last layer.
pub fn walk_to(
    alloc: Global,
    table: &Vec<Vec<u64>>,
    graph: &Graph,
    at: usize,
) -> Result<Vec<Move>, NoMemory>
    requires graph { IsGraph graph.now }
    requires table { IsTable (opponent_of graph.now) (game_of graph.now) (layers_of table.now.items) }
    requires row { at < length (opponent_of graph.now).rows }
    requires some { 0 < best_at (layers_of table.now.items) (length (opponent_of graph.now).rows) at }
    ensures { IfOk result (λ moves. IsFull (opponent_of graph.now) (game_of graph.now) (layers_of table.now.items) at moves.items) }
{
    let rows = graph.len();
    let mut moves = Vec::with_capacity(alloc, rows)?;
    let mut row = at;
    for i in 0..rows {
        let edge = before(table, graph, rows - 1 - i, row);
        moves.push(edge.by)?;
        row = edge.from;
    }
    moves.reverse();
    Ok(moves)
}

/// The first turn of a walk of R moves from the start.
pub fn turn_of(alloc: Global, graph: &Graph, moves: &[Move]) -> Result<Turn, NoMemory>
    requires graph { IsGraph graph.now }
    requires full { length moves.now ≡ length (opponent_of graph.now).rows }
    ensures { IfOk result (λ turn. IsTurn (opponent_of graph.now) moves.now turn.first turn.second) }
{
    let mut seen = vec![in alloc; 0usize; graph.len()]?;
    let mut row = graph.start();
    for j in 0..moves.len() {
        if seen[row] > 0 {
            return Ok(Turn {
                first: seen[row] - 1,
                second: j,
            });
        }
        seen[row] = j + 1;
        row = graph.exit(row, moves[j]).to as usize;
    }
    if seen[row] > 0 {
        return Ok(Turn {
            first: seen[row] - 1,
            second: moves.len(),
        });
    }
    unreachable!()
}
