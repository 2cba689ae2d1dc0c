//! A layer has for each row one more than the most that so many own moves from the start are paid on
//! the way to it, and 0 where none lead there.
ghost use Rattle.std.specs.Prelude.{◌≡◌, ℕ, ◌+◌, ◌*◌, ◌^◌, ◌<◌, ◌≤◌, length, IfOk, slice_index, slice_set, max};
ghost use Rattle.history_model.specs.Mean.{step};
ghost use Rattle.mean_response.specs.Graph.{opponent_of, game_of, IsGraph};
ghost use Rattle.mean_response.specs.Walks.{gain, IsLayer};

use crate::graph::Graph;
use history_model::{Move, NoMemory};
use std::alloc::Global;

fn raise(bests: &mut Vec<u64>, row: usize, x: u64)
    requires { row < length bests.old.items }
    ensures { bests.new.items ≡ slice_set bests.old.items row (max (slice_index bests.old.items row) x) }
{
    if bests[row] < x {
        bests[row] = x;
    }
}

fn zeros(alloc: Global, rows: usize) -> Result<Vec<u64>, NoMemory>
    ensures size { IfOk result (λ all. length all.items ≡ rows) }
    ensures zero { IfOk result (λ all. (row : ℕ) → slice_index all.items row ≡ 0) }
{
    Ok(vec![in alloc; 0; rows]?)
}

// What a way out of a row brings to the row that it leads to.
fn follow(above: &mut Vec<u64>, best: u64, graph: &Graph, row: usize, mine: Move)
    requires graph { IsGraph graph.now }
    requires row { row < length (opponent_of graph.now).rows }
    requires size { length above.old.items ≡ length (opponent_of graph.now).rows }
    requires few { best ≤ 10 ^ 9 }
    ensures { above.new.items ≡ slice_set above.old.items (step (opponent_of graph.now) row mine) (max (slice_index above.old.items (step (opponent_of graph.now) row mine)) (best + gain (opponent_of graph.now) (game_of graph.now) row mine)) }
{
    let exit = graph.exit(row, mine);
    raise(above, exit.to as usize, best + exit.points);
}

/// The layer of one move more.
pub fn layer(
    alloc: Global,
    below: &[u64],
    graph: &Graph,
    moves: usize,
) -> Result<Vec<u64>, NoMemory>
    requires graph { IsGraph graph.now }
    requires moves { moves ≤ 512 }
    requires below { IsLayer (opponent_of graph.now) (game_of graph.now) moves below.now }
    ensures { IfOk result (λ above. IsLayer (opponent_of graph.now) (game_of graph.now) (moves + 1) above.items) }
{
    let mut above = zeros(alloc, graph.len())?;
    for row in 0..graph.len() {
        let best = below[row];
        if best > 0 {
            follow(&mut above, best, graph, row, Move::C);
            follow(&mut above, best, graph, row, Move::D);
        }
    }
    Ok(above)
}

/// The layer of no move.
pub fn first(alloc: Global, graph: &Graph) -> Result<Vec<u64>, NoMemory>
    requires { IsGraph graph.now }
    ensures { IfOk result (λ bests. IsLayer (opponent_of graph.now) (game_of graph.now) 0 bests.items) }
{
    let mut bests = zeros(alloc, graph.len())?;
    bests[graph.start()] = 1;
    Ok(bests)
}
