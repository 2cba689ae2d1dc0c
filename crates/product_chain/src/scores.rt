//! The expected scores of both sides, as spans.
ghost use Rattle.std.specs.Prelude.{◌≡◌, ◌≤◌, IfOk};
ghost use Rattle.history_model.specs.Expectation.{player};
ghost use Rattle.history_model.specs.Game.{least, most};
ghost use Rattle.fixed_span.specs.Span.{Holds, IsWithin, score_units};
ghost use Rattle.product_chain.specs.Estimate.{from_rows, side_fraction, IsEstimate, IsScore, IsSureSide};
ghost use Rattle.product_chain.specs.Layer.{IsSide};
ghost use Rattle.product_chain.specs.Expected.{expected_score, IsPayable, IsSharp, IsSureMatch, IsTight};

use crate::estimate::{Estimate, estimate_of};
use crate::side::{Side, seen};
use crate::units::{ends, limit};
use fixed_span::Span;
use history_model::{
    Game, Grid, NoMemory, Noise, automata_are_weighed, histories_agree_with_rows, offset_lowers,
};
use std::alloc::Global;

/// What both sides expect to score in a match of `turns` turns, 1 to 10,000: the left side's span
/// first, both in units of 10^-12. The spans hold the exact fractions, lie between what the least and
/// the greatest payoff give, and are at most `turns` wide; where the chain counts in finer parts, they
/// are narrower (`IsTight`). Of one turn both ends are less than one unit off, and where neither side
/// draws lots and no move is flipped the spans are points. An `Err` is want of memory.
pub fn expect(
    alloc: Global,
    left: &Grid,
    right: &Grid,
    game: &Game,
    left_noise: &Noise,
    right_noise: &Noise,
    turns: u32,
) -> Result<(Span, Span), NoMemory>
    requires some_turns { 1 ≤ turns }
    requires few_turns { turns ≤ 10000 }
    ensures left_holds { IfOk result (λ spans. Holds score_units spans.0 (expected_score (player left.now) left_noise.now (player right.now) right_noise.now game.now 0 turns)) }
    ensures right_holds { IfOk result (λ spans. Holds score_units spans.1 (expected_score (player right.now) right_noise.now (player left.now) left_noise.now game.now 0 turns)) }
    ensures left_width { IfOk result (λ spans. IsWithin turns spans.0) }
    ensures right_width { IfOk result (λ spans. IsWithin turns spans.1) }
    ensures left_narrow { IfOk result (λ spans. IsTight game.now turns spans.0) }
    ensures right_narrow { IfOk result (λ spans. IsTight game.now turns spans.1) }
    ensures left_payable { IfOk result (λ spans. IsPayable game.now turns spans.0) }
    ensures right_payable { IfOk result (λ spans. IsPayable game.now turns spans.1) }
    ensures points { IfOk result (λ spans. IsSureMatch left.now left_noise.now right.now right_noise.now → (spans.0.lo ≡ spans.0.hi) × (spans.1.lo ≡ spans.1.hi)) }
    ensures left_one_turn { turns ≡ 1 → IfOk result (λ spans. IsSharp score_units spans.0 (expected_score (player left.now) left_noise.now (player right.now) right_noise.now game.now 0 turns)) }
    ensures right_one_turn { turns ≡ 1 → IfOk result (λ spans. IsSharp score_units spans.1 (expected_score (player right.now) right_noise.now (player left.now) left_noise.now game.now 0 turns)) }
{
    let left_side = seen(left, left_noise, right, right_noise, game);
    let right_side = seen(right, right_noise, left, left_noise, game);
    let left_score = side_score(alloc, &left_side, turns)?;
    let right_score = side_score(alloc, &right_side, turns)?;
    Ok((left_score, right_score))
}

// What one side expects to score.
fn side_score(alloc: Global, side: &Side, turns: u32) -> Result<Span, NoMemory>
    requires valid { IsSide side.now }
    requires some_turns { 1 ≤ turns }
    requires few_turns { turns ≤ 10000 }
    ensures score { IfOk result (λ span. IsScore side.now turns span) }
    ensures fraction { side_fraction side.now turns ≡ from_rows side.now turns }
    ensures sure { IsSureSide side.now → IfOk result (λ span. span.lo ≡ span.hi) }
{
    automata_are_weighed();
    histories_agree_with_rows();
    offset_lowers();
    let estimate = estimate_of(alloc, side, turns)?;
    Ok(span_of(side, turns, &estimate))
}

// The span of an estimate.
fn span_of(side: &Side, turns: u32, estimate: &Estimate) -> Span
    requires valid { IsSide side.now }
    requires some_turns { 1 ≤ turns }
    requires few_turns { turns ≤ 10000 }
    requires estimate { IsEstimate side.now turns estimate.now }
    requires one_turn { turns ≡ 1 → estimate.now.err ≡ 0 }
    ensures score { IsScore side.now turns result }
    ensures point { estimate.now.scale ≡ 1 → estimate.now.err ≡ 0 → result.lo ≡ result.hi }
{
    let floor = limit(turns, least_of(side.game));
    let roof = limit(turns, most_of(side.game));
    ends(estimate.value, estimate.err, estimate.scale, floor, roof)
}

// The least payoff.
fn least_of(game: &Game) -> u128
    ensures value { result ≡ least game.now }
    ensures few { result ≤ 1000000 }
{
    let (r, s, t, p) = game.unsigned();
    r.min(s).min(t).min(p) as u128
}

// The greatest payoff.
fn most_of(game: &Game) -> u128
    ensures value { result ≡ most game.now }
    ensures few { result ≤ 1000000 }
{
    let (r, s, t, p) = game.unsigned();
    r.max(s).max(t).max(p) as u128
}
