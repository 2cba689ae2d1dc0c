//! The greatest of den times the points, less num for each move, at each row.
ghost use Rattle.std.specs.Prelude.{◌≡◌, ℕ, ◌+◌, ◌*◌, ◌^◌, ◌<◌, ◌≤◌, length, IfOk, slice_index, slice_index_or, ℤ, Option};
ghost use Rattle.mean_response.specs.Graph.{opponent_of, game_of, IsGraph};
ghost use Rattle.mean_response.specs.Raised.{IsRaised};
ghost use Rattle.mean_response.specs.Walks.{layers_of, HasPotential, IsHeight, IsPeak, IsTable};

use crate::graph::Graph;
use crate::ratio::product;
use crate::table::best;
use history_model::NoMemory;
use std::alloc::Global;

// The potential of a row, raised so far that it is above 0, and 0 where there is none.
fn height(table: &Vec<Vec<u64>>, graph: &Graph, num: u64, den: u64, row: usize) -> u64
    requires graph { IsGraph graph.now }
    requires table { IsTable (opponent_of graph.now) (game_of graph.now) (layers_of table.now.items) }
    requires row { row < length (opponent_of graph.now).rows }
    requires num { num ≤ 10 ^ 9 }
    requires den { den ≤ 512 }
    ensures height { IsHeight (layers_of table.now.items) (length (opponent_of graph.now).rows) num den row result }
    ensures few { result ≤ 10 ^ 13 }
{
    let rows = graph.len();
    let mut most = 0;
    for moves in 0..rows {
        let low = best(table, graph, moves, row);
        if low > 0 {
            let height = product(low, den) + product(num, (rows - moves) as u64);
            if most < height {
                most = height;
            }
        }
    }
    most
}

// A potential from its height.
fn potential(height: u64, base: u64) -> Option<i64>
    requires height { height ≤ 10 ^ 13 }
    requires base { base ≤ 10 ^ 13 }
    ensures { IsRaised height base result }
{
    if height == 0 {
        None
    } else {
        Some(height as i64 - base as i64)
    }
}

fn heights(
    alloc: Global,
    table: &Vec<Vec<u64>>,
    graph: &Graph,
    num: u64,
    den: u64,
) -> Result<Vec<u64>, NoMemory>
    requires graph { IsGraph graph.now }
    requires table { IsTable (opponent_of graph.now) (game_of graph.now) (layers_of table.now.items) }
    requires num { num ≤ 10 ^ 9 }
    requires den { den ≤ 512 }
    ensures size { IfOk result (λ all. length all.items ≡ length (opponent_of graph.now).rows) }
    ensures each { IfOk result (λ all. (row : ℕ) → row < length (opponent_of graph.now).rows → IsHeight (layers_of table.now.items) (length (opponent_of graph.now).rows) num den row (slice_index all.items row)) }
    ensures few { IfOk result (λ all. (row : ℕ) → row < length (opponent_of graph.now).rows → slice_index all.items row ≤ 10 ^ 13) }
{
    let mut all = Vec::with_capacity(alloc, graph.len())?;
    for row in 0..graph.len() {
        all.push(height(table, graph, num, den, row))?;
    }
    Ok(all)
}

/// The potentials of all rows.
pub fn potentials_of(
    alloc: Global,
    table: &Vec<Vec<u64>>,
    graph: &Graph,
    num: u64,
    den: u64,
) -> Result<Vec<Option<i64>>, NoMemory>
    requires graph { IsGraph graph.now }
    requires table { IsTable (opponent_of graph.now) (game_of graph.now) (layers_of table.now.items) }
    requires num { num ≤ 10 ^ 9 }
    requires den { den ≤ 512 }
    requires peak { (at : ℕ) × IsPeak (layers_of table.now.items) (length (opponent_of graph.now).rows) at num den }
    ensures size { IfOk result (λ all. length all.items ≡ length (opponent_of graph.now).rows) }
    ensures each { IfOk result (λ all. (row : ℕ) (d : Option ℤ) → row < length (opponent_of graph.now).rows → HasPotential (opponent_of graph.now) (game_of graph.now) num den row (slice_index_or all.items row d)) }
{
    let raised = heights(alloc, table, graph, num, den)?;
    let base = den + product(num, graph.len() as u64);
    let mut all = Vec::with_capacity(alloc, graph.len())?;
    for row in 0..graph.len() {
        all.push(potential(raised[row], base))?;
    }
    Ok(all)
}
