//! The greatest mean, as the greatest of the least rises.
ghost use Rattle.std.specs.Prelude.{◌≡◌, ℕ, ◌+◌, ◌*◌, ◌^◌, ◌<◌, ◌≤◌, length};
ghost use Rattle.mean_response.specs.Graph.{opponent_of, game_of, IsGraph};
ghost use Rattle.mean_response.specs.Walks.{best_at, layers_of, IsLeast, IsLowest, IsPeak, IsRise, IsTable};

use crate::graph::Graph;
use crate::table::{best, forward};

/// A fraction.
#[derive(Clone, Copy)]
pub struct Ratio {
    pub num: u64,
    pub den: u64,
}

/// The greatest mean, and a row at which it is met.
#[derive(Clone, Copy)]
pub struct Peak {
    pub at: usize,
    pub num: u64,
    pub den: u64,
}

/// The product of two numbers.
pub fn product(a: u64, b: u64) -> u64
    requires a { a ≤ 10 ^ 9 }
    requires b { b ≤ 512 }
    ensures value { result ≡ a * b }
    ensures few { result ≤ 512 * 10 ^ 9 }
{
    a * b
}

// The least rise at a row, from an earlier layer to the last. It begins at one above all.
fn steepest(table: &Vec<Vec<u64>>, graph: &Graph, row: usize) -> Ratio
    requires graph { IsGraph graph.now }
    requires table { IsTable (opponent_of graph.now) (game_of graph.now) (layers_of table.now.items) }
    requires row { row < length (opponent_of graph.now).rows }
    requires some { 0 < best_at (layers_of table.now.items) (length (opponent_of graph.now).rows) row }
    ensures least { IsLeast (layers_of table.now.items) (length (opponent_of graph.now).rows) row result.num result.den }
    ensures rise { IsRise (layers_of table.now.items) (length (opponent_of graph.now).rows) row result.num result.den }
    ensures num_few { result.num ≤ 10 ^ 9 }
    ensures den_few { result.den ≤ length (opponent_of graph.now).rows }
{
    let rows = graph.len();
    let top = best(table, graph, rows, row);
    let mut num = 1;
    let mut den = 0;
    for moves in 0..rows {
        let low = best(table, graph, moves, row);
        if low > 0 {
            let rise = top.saturating_sub(low);
            let run = (rows - moves) as u64;
            if product(rise, den) < product(num, run) {
                num = rise;
                den = run;
            }
        }
    }
    Ratio { num, den }
}

/// The greatest of the least rises.
pub fn highest(table: &Vec<Vec<u64>>, graph: &Graph) -> Peak
    requires graph { IsGraph graph.now }
    requires table { IsTable (opponent_of graph.now) (game_of graph.now) (layers_of table.now.items) }
    ensures peak { IsPeak (layers_of table.now.items) (length (opponent_of graph.now).rows) result.at result.num result.den }
    ensures num_few { result.num ≤ 10 ^ 9 }
    ensures den_few { result.den ≤ length (opponent_of graph.now).rows }
{
    let rows = graph.len();
    let mut at = forward(graph, rows);
    let mut num = 0;
    let mut den = 1;
    for row in 0..rows {
        if best(table, graph, rows, row) > 0 {
            let least = steepest(table, graph, row);
            if product(num, least.den) < product(least.num, den) {
                at = row;
                num = least.num;
                den = least.den;
            }
        }
    }
    Peak { at, num, den }
}

/// The same fraction in lowest terms.
pub fn lowest(num: u64, den: u64) -> Ratio
    requires num { num ≤ 10 ^ 9 }
    requires some { 0 < den }
    requires den { den ≤ 512 }
    ensures same { num * result.den ≡ result.num * den }
    ensures lowest { IsLowest result.num result.den }
    ensures num_few { result.num ≤ num }
    ensures den_few { result.den ≤ den }
{
    for divisor in 1..den {
        if product(num, divisor) % den == 0 {
            return Ratio {
                num: product(num, divisor) / den,
                den: divisor,
            };
        }
    }
    Ratio { num, den }
}
