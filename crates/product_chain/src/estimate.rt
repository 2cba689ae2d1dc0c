//! Estimates of what a side expects.
ghost use Rattle.std.specs.Prelude.{◌≡◌, ◌+◌, ◌-◌, ◌*◌, ◌/◌, ◌^◌, ◌<◌, ◌≤◌, IfOk};
ghost use Rattle.history_model.specs.Game.{pay};
ghost use Rattle.fixed_span.specs.Span.{score_units};
ghost use Rattle.product_chain.specs.Estimate.{from_starts, IsEstimate, IsSureSide};
ghost use Rattle.product_chain.specs.Layer.{IsSide, one_play};
ghost use Rattle.product_chain.specs.Scale.{IsScale};

use crate::course::{Weights, shown_weights};
use crate::scale::scale_of;
use crate::side::Side;
use crate::slim::{SLIM_ROOM, run_slim, slim_plan_of};
use crate::sure::{is_sure, path_points, points_of};
use crate::wide::{WIDE_ROOM, run_wide, weighed, wide_plan_of};
use history_model::{Move, NoMemory};
use std::alloc::Global;

/// A number of points in parts of which `scale` make a point: at least `value`, and at most `err`
/// more.
#[derive(Clone, Copy)]
pub struct Estimate {
    pub value: u128,
    pub err: u128,
    pub scale: u128,
}

// What a move of the side brings in one turn, where the other moves by the weights.
fn one_move(side: &Side, other: Weights, mine: Move) -> u128
    requires few { other.c + other.d ≤ 1000000 }
    ensures value { result ≡ other.c * pay side.now.game.now mine Move.C + other.d * pay side.now.game.now mine Move.D }
    ensures few { result ≤ 10 ^ 12 }
{
    let if_c = points_of(side.game, mine, Move::C);
    let if_d = points_of(side.game, mine, Move::D);
    weighed(other, if_c, if_d)
}

// The points of one turn from the starts, in parts of the denominator of one play.
fn one_turn(side: &Side) -> u128
    requires { IsSide side.now }
    ensures { result ≡ from_starts side.now 1 }
{
    let own = side.own;
    let other = side.other;
    let own_weights = shown_weights(own, side.own_noise, own.start);
    let other_weights = shown_weights(other, side.other_noise, other.start);
    let if_c = one_move(side, other_weights, Move::C);
    let if_d = one_move(side, other_weights, Move::D);
    weighed(own_weights, if_c, if_d)
}

// One turn, with no error.
fn single(side: &Side) -> Estimate
    requires valid { IsSide side.now }
    ensures estimate { IsEstimate side.now 1 result }
    ensures exact { result.err ≡ 0 }
{
    Estimate {
        value: one_turn(side),
        err: 0,
        scale: side.own_over as u128 * side.other_over as u128,
    }
}

// A sure match, with no error.
fn certain(side: &Side, turns: u32) -> Estimate
    requires valid { IsSide side.now }
    requires sure { IsSureSide side.now }
    requires some_turns { 1 ≤ turns }
    requires few_turns { turns ≤ 10000 }
    ensures estimate { IsEstimate side.now turns result }
    ensures whole { result.scale ≡ 1 }
    ensures exact { result.err ≡ 0 }
{
    Estimate {
        value: path_points(side, turns),
        err: 0,
        scale: 1,
    }
}

// Two turns or more in 64 bits, where these count finely enough.
fn slim(alloc: Global, side: &Side, turns: u32, scale: u64) -> Result<Estimate, NoMemory>
    requires valid { IsSide side.now }
    requires some_turns { 2 ≤ turns }
    requires few_turns { turns ≤ 10000 }
    requires scale { IsScale side.now.game.now turns (2 ^ 63 - 1) scale }
    requires enough { 6 * turns * score_units ≤ scale }
    ensures { IfOk result (λ estimate. IsEstimate side.now turns estimate) }
{
    let plan = slim_plan_of(alloc, side, scale)?;
    let cell = run_slim(alloc, &plan, turns)?;
    Ok(Estimate {
        value: cell.saturating_sub(2 * turns as u64) as u128,
        err: 6 * turns as u128,
        scale: scale as u128,
    })
}

// Two turns or more in 128 bits.
fn wide(alloc: Global, side: &Side, turns: u32) -> Result<Estimate, NoMemory>
    requires valid { IsSide side.now }
    requires some_turns { 2 ≤ turns }
    requires few_turns { turns ≤ 10000 }
    ensures { IfOk result (λ estimate. IsEstimate side.now turns estimate) }
{
    let scale = scale_of(side.game, turns, WIDE_ROOM);
    let plan = wide_plan_of(alloc, side, scale)?;
    let cell = run_wide(alloc, &plan, turns)?;
    Ok(Estimate {
        value: cell,
        err: 4 * turns as u128,
        scale,
    })
}

/// What the side expects of the turns.
pub fn estimate_of(alloc: Global, side: &Side, turns: u32) -> Result<Estimate, NoMemory>
    requires valid { IsSide side.now }
    requires some_turns { 1 ≤ turns }
    requires few_turns { turns ≤ 10000 }
    ensures estimate { IfOk result (λ estimate. IsEstimate side.now turns estimate) }
    ensures sure { IsSureSide side.now → IfOk result (λ estimate. (estimate.scale ≡ 1) × (estimate.err ≡ 0)) }
    ensures one_turn { turns ≡ 1 → IfOk result (λ estimate. estimate.err ≡ 0) }
{
    if is_sure(side) {
        return Ok(certain(side, turns));
    }
    if turns == 1 {
        return Ok(single(side));
    }
    let scale = scale_of(side.game, turns, SLIM_ROOM);
    if 6_000_000_000_000 * turns as u128 <= scale {
        return slim(alloc, side, turns, scale as u64);
    }
    wide(alloc, side, turns)
}
