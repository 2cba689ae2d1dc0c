//! Matches in which neither side draws lots and no move is flipped.
ghost use Rattle.std.specs.Prelude.{◌≡◌, ℕ, ◌+◌, ◌-◌, ◌*◌, ◌^◌, ◌<◌, ◌≤◌, ◌⊎◌, length, IsTrue};
ghost use Rattle.history_model.specs.Automaton.{next_of, row_at};
ghost use Rattle.history_model.specs.Path.{sure_move};
ghost use Rattle.history_model.specs.Game.{pay};
ghost use Rattle.product_chain.specs.Estimate.{IsCertain, IsSureSide, sure_points};
ghost use Rattle.product_chain.specs.Layer.{IsSide};

use crate::side::Side;
use history_model::{Game, Grid, Move, Noise};

// Whether an automaton draws no lots and its moves are not flipped.
fn is_certain(grid: &Grid, noise: &Noise) -> bool
    ensures yes { IsTrue result → IsCertain grid.now noise.now }
    ensures no { IsCertain grid.now noise.now → IsTrue result }
{
    if noise.n != 0 {
        return false;
    }
    for row in 0..grid.len() {
        let weight = grid.row(row).weight;
        if weight != 0 && weight != grid.den {
            return false;
        }
    }
    true
}

/// Whether neither side draws lots and no move is flipped.
pub fn is_sure(side: &Side) -> bool
    ensures yes { IsTrue result → IsSureSide side.now }
    ensures no { IsSureSide side.now → IsTrue result }
{
    is_certain(side.own, side.own_noise) && is_certain(side.other, side.other_noise)
}

// The move of a sure automaton.
fn move_at(grid: &Grid, row: u32) -> Move
    requires { row < length grid.now.rows }
    ensures { result ≡ sure_move grid.now row }
{
    if grid.row(row).weight == grid.den {
        Move::C
    } else {
        Move::D
    }
}

// The next row after a play.
fn next_row(grid: &Grid, row: u32, mine: Move, theirs: Move) -> u32
    requires { row < length grid.now.rows }
    ensures value { result ≡ next_of (row_at grid.now row) mine theirs }
    ensures within { result < length grid.now.rows }
{
    grid.row(row).next_after(mine, theirs)
}

/// What the side is paid for a play.
pub fn points_of(game: &Game, mine: Move, theirs: Move) -> u128
    ensures value { result ≡ pay game.now mine theirs }
    ensures few { result ≤ 1000000 }
{
    game.pay(mine, theirs) as u128
}

/// The points of the side along the path of sure moves.
pub fn path_points(side: &Side, turns: u32) -> u128
    requires valid { IsSide side.now }
    requires turns { turns ≤ 10000 }
    ensures { result ≡ sure_points side.now turns side.now.own.now.start side.now.other.now.start }
{
    let own = side.own;
    let other = side.other;
    let mut u = own.start;
    let mut v = other.start;
    let mut total = 0;
    for _turn in 0..turns {
        let mine = move_at(own, u);
        let theirs = move_at(other, v);
        total += points_of(side.game, mine, theirs);
        u = next_row(own, u, mine, theirs);
        v = next_row(other, v, theirs, mine);
    }
    total
}
