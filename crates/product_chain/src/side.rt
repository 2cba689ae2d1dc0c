//! A match as one of its players sees it.
ghost use Rattle.std.specs.Prelude.{◌≡◌, ◌*◌, ◌≤◌};
ghost use Rattle.history_model.specs.Automaton.{IsAutomaton};
ghost use Rattle.history_model.specs.Noise.{IsFlipRate};
ghost use Rattle.product_chain.specs.Layer.{IsSide};

use crate::scale::top_of;
use history_model::{Game, Grid, Noise};

/// A match as one of its players sees it, with the denominators of the moves that each side shows, and
/// the most that a turn pays, or 1.
#[derive(Clone, Copy)]
pub struct Side<'a> {
    pub own: &'a Grid,
    pub own_noise: &'a Noise,
    pub own_over: u64,
    pub other: &'a Grid,
    pub other_noise: &'a Noise,
    pub other_over: u64,
    pub game: &'a Game,
    pub top: u128,
}

/// The match of `own` against `other`, as `own` sees it.
pub fn seen<'a>(
    own: &'a Grid,
    own_noise: &'a Noise,
    other: &'a Grid,
    other_noise: &'a Noise,
    game: &'a Game,
) -> Side<'a>
    ensures own { result.own.now ≡ own.now }
    ensures own_noise { result.own_noise.now ≡ own_noise.now }
    ensures other { result.other.now ≡ other.now }
    ensures other_noise { result.other_noise.now ≡ other_noise.now }
    ensures game { result.game.now ≡ game.now }
    ensures valid { IsSide result }
{
    Side {
        own,
        own_noise,
        own_over: over(own, own_noise),
        other,
        other_noise,
        other_over: over(other, other_noise),
        game,
        top: top_of(game),
    }
}

// The denominator of the weights of the moves that are shown.
fn over(grid: &Grid, noise: &Noise) -> u64
    ensures value { result ≡ grid.now.den * noise.now.e }
    ensures automaton { IsAutomaton grid.now }
    ensures rate { IsFlipRate noise.now }
    ensures some { 1 ≤ result }
    ensures few { result ≤ 1000000 }
{
    grid.den as u64 * noise.e as u64
}
