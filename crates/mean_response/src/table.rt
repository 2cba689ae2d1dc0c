//! The layers of 0 to R moves, where R is the number of rows.
ghost use Rattle.std.specs.Prelude.{◌≡◌, ◌+◌, ◌^◌, ◌<◌, ◌≤◌, length, IfOk};
ghost use Rattle.mean_response.specs.Graph.{opponent_of, game_of, IsGraph};
ghost use Rattle.mean_response.specs.Walks.{best_at, layers_of, IsReached, IsTable};

use crate::graph::Graph;
use crate::layers::{first, layer};
use history_model::{Move, NoMemory};
use std::alloc::Global;

/// All layers.
pub fn table_of(alloc: Global, graph: &Graph) -> Result<Vec<Vec<u64>>, NoMemory>
    requires { IsGraph graph.now }
    ensures { IfOk result (λ table. IsTable (opponent_of graph.now) (game_of graph.now) (layers_of table.items)) }
{
    let rows = graph.len();
    let mut layers = Vec::with_capacity(alloc, rows + 1)?;
    layers.push(first(alloc, graph)?)?;
    for moves in 0..rows {
        let next = layer(alloc, &layers[moves], graph, moves)?;
        layers.push(next)?;
    }
    Ok(layers)
}

/// The number of a row in the layer of so many moves.
pub fn best(table: &Vec<Vec<u64>>, graph: &Graph, moves: usize, row: usize) -> u64
    requires graph { IsGraph graph.now }
    requires table { IsTable (opponent_of graph.now) (game_of graph.now) (layers_of table.now.items) }
    requires moves { moves ≤ length (opponent_of graph.now).rows }
    requires row { row < length (opponent_of graph.now).rows }
    ensures value { result ≡ best_at (layers_of table.now.items) moves row }
    ensures few { result ≤ 10 ^ 9 }
{
    table[moves][row]
}

/// A row to which so many moves lead from the start.
pub fn forward(graph: &Graph, moves: usize) -> usize
    requires { IsGraph graph.now }
    ensures inside { result < length (opponent_of graph.now).rows }
    ensures reached { IsReached (opponent_of graph.now) moves result }
{
    let mut row = graph.start();
    for _move in 0..moves {
        row = graph.exit(row, Move::C).to as usize;
    }
    row
}
