//! The line of one match on a bench.
ghost use Rattle.std.specs.Prelude.{◌≡◌, ◌*◌, ◌≤◌, ◌^◌, pos, ◌↔◌, false, IfOk, IsTrue};
ghost use Rattle.player_core.specs.Fits.{Fits};
ghost use Rattle.player_core.specs.Bench.{KeepsBench, NoAdvancesFell};
ghost use Rattle.fixed_span.specs.Span.{point, score_units};
ghost use Rattle.match_play.specs.Known.{IsKnownOn};
ghost use Rattle.product_chain.specs.Expected.{IsPayable};
ghost use Rattle.result_lines.specs.Totals.{IsScoreSpan};
ghost use Rattle.round_robin.specs.Laws.{IsInRange};
ghost use Rattle.round_robin.specs.OnBench.{AreSidesOn, AtMostOn, IsAskedOn, IsLineOn, IsSureOn};

use crate::Entrant;
use fixed_span::Span;
use history_model::{Game, NoMemory};
use match_play::{MatchLine, Trail, play_sheets_long, tabulate_sheets};
use player_core::{Bench, Player, Seen};
use product_chain::expect;
use std::alloc::Global;

// The parts of a point in which scores are given.
const SCORE_UNITS: u128 = 1_000_000_000_000;

// A whole number of points as a span.
fn points_span(points: u128) -> Span
    requires { points ≤ 10 ^ 18 }
    ensures value { result ≡ point (pos (points * score_units)) }
    ensures range { IsScoreSpan result }
{
    Span::point((points * SCORE_UNITS) as i128)
}

// What some turns can pay is in range. The call does nothing: a caller learns the fact from it.
fn paid_in_range(span: &Span, game: &Game, turns: u64)
    requires few_turns { turns ≤ 10000 }
    requires payable { IsPayable game.now turns span.now }
    ensures { IsScoreSpan span.now }
{
    let _ranges = (game.unsigned(), span.ends());
}

// The line of a sure match, which is played.
fn played_line(
    trail: &mut Trail,
    bench: &mut Bench,
    left: &Entrant,
    right: &Entrant,
    game: &Game,
    turns: u64,
) -> Result<MatchLine, NoMemory>
    requires fits { Fits (⟦<Bench as Seen>⟧.view bench.old) }
    requires left_known { IsKnownOn (⟦<Bench as Seen>⟧.view bench.old) left.now.sheet.now }
    requires right_known { IsKnownOn (⟦<Bench as Seen>⟧.view bench.old) right.now.sheet.now }
    requires few_turns { turns ≤ 10 ^ 12 }
    requires sure { IsSureOn (⟦<Bench as Seen>⟧.view bench.old) left.now right.now }
    ensures line { IfOk result (IsLineOn (⟦<Bench as Seen>⟧.view bench.old) left.now right.now game.now turns) }
    ensures left_place { IfOk result (λ line. line.left ≡ left.now.place) }
    ensures right_place { IfOk result (λ line. line.right ≡ right.now.place) }
    ensures turns { IfOk result (λ line. line.turns ≡ turns) }
    ensures range { IfOk result (IsInRange turns) }
    ensures sides { IfOk result (λ _. AreSidesOn (⟦<Bench as Seen>⟧.view bench.old) left.now right.now) }
    ensures asked { IfOk result (λ _. IsAskedOn (⟦<Bench as Seen>⟧.view bench.old) (⟦<Bench as Seen>⟧.view bench.new) left.now right.now turns) }
    ensures none_fell { IfOk result (λ _. NoAdvancesFell (⟦<Bench as Seen>⟧.view bench.old) (⟦<Bench as Seen>⟧.view bench.new)) }
    ensures most { AtMostOn (⟦<Bench as Seen>⟧.view bench.old) (⟦<Bench as Seen>⟧.view bench.new) left.now right.now }
    ensures kept { KeepsBench (⟦<Bench as Seen>⟧.view bench.old) (⟦<Bench as Seen>⟧.view bench.new) }
{
    let tally = play_sheets_long(trail, bench, left.sheet, right.sheet, turns)?;
    // The chances of flips are in range by their type.
    let _rates = (left.noise.denominator(), right.noise.denominator());
    Ok(MatchLine {
        left: left.place,
        right: right.place,
        turns,
        left_score: points_span(tally.left_points(game)),
        right_score: points_span(tally.right_points(game)),
        tally: Some(tally),
    })
}

// The line of a match that isn't sure, whose players are read.
fn mixed_line(
    alloc: Global,
    bench: &mut Bench,
    left: &Entrant,
    right: &Entrant,
    game: &Game,
    turns: u64,
) -> Result<MatchLine, NoMemory>
    requires fits { Fits (⟦<Bench as Seen>⟧.view bench.old) }
    requires left_known { IsKnownOn (⟦<Bench as Seen>⟧.view bench.old) left.now.sheet.now }
    requires right_known { IsKnownOn (⟦<Bench as Seen>⟧.view bench.old) right.now.sheet.now }
    requires some_turns { 1 ≤ turns }
    requires few_turns { turns ≤ 10000 }
    requires unsure { IsSureOn (⟦<Bench as Seen>⟧.view bench.old) left.now right.now → ⊥ }
    ensures line { IfOk result (IsLineOn (⟦<Bench as Seen>⟧.view bench.old) left.now right.now game.now turns) }
    ensures left_place { IfOk result (λ line. line.left ≡ left.now.place) }
    ensures right_place { IfOk result (λ line. line.right ≡ right.now.place) }
    ensures turns { IfOk result (λ line. line.turns ≡ turns) }
    ensures range { IfOk result (IsInRange turns) }
    ensures sides { IfOk result (λ _. AreSidesOn (⟦<Bench as Seen>⟧.view bench.old) left.now right.now) }
    ensures asked { IfOk result (λ _. IsAskedOn (⟦<Bench as Seen>⟧.view bench.old) (⟦<Bench as Seen>⟧.view bench.new) left.now right.now turns) }
    ensures none_fell { IfOk result (λ _. NoAdvancesFell (⟦<Bench as Seen>⟧.view bench.old) (⟦<Bench as Seen>⟧.view bench.new)) }
    ensures most { AtMostOn (⟦<Bench as Seen>⟧.view bench.old) (⟦<Bench as Seen>⟧.view bench.new) left.now right.now }
    ensures kept { KeepsBench (⟦<Bench as Seen>⟧.view bench.old) (⟦<Bench as Seen>⟧.view bench.new) }
{
    let (left_grid, right_grid) = tabulate_sheets(alloc, bench, left.sheet, right.sheet)?;
    // Grids and chances of flips are valid by their types.
    let _sides = (left_grid.len(), right_grid.len());
    let _rates = (left.noise.denominator(), right.noise.denominator());
    let (left_score, right_score) = expect(
        alloc,
        &left_grid,
        &right_grid,
        game,
        &left.noise,
        &right.noise,
        turns as u32,
    )?;
    paid_in_range(&left_score, game, turns);
    paid_in_range(&right_score, game, turns);
    Ok(MatchLine {
        left: left.place,
        right: right.place,
        turns,
        left_score,
        right_score,
        tally: None,
    })
}

/// The line of a match of 1 to 10^12 turns between the players that take the sheets of two entrants.
/// `sure` tells whether neither sheet draws lots and no move is flipped. Such a match is followed
/// until its pairs of rows come again, with the marks of the trail, and then counted by whole cycles; of
/// any other, which has at most 10,000 turns, both players are read, and the line holds what both sides
/// expect. Scores are from 0 to 10^30 units. No side makes more than two advances for each pair of rows
/// and four for each row, and the bench goes on fitting with the same plugs, also without memory.
///
/// # Errors
///
/// `NoMemory` where the trail or a match that isn't sure finds no memory.
pub fn match_line(
    alloc: Global,
    trail: &mut Trail,
    bench: &mut Bench,
    left: &Entrant,
    right: &Entrant,
    game: &Game,
    turns: u64,
    sure: bool,
) -> Result<MatchLine, NoMemory>
    requires fits { Fits (⟦<Bench as Seen>⟧.view bench.old) }
    requires left_known { IsKnownOn (⟦<Bench as Seen>⟧.view bench.old) left.now.sheet.now }
    requires right_known { IsKnownOn (⟦<Bench as Seen>⟧.view bench.old) right.now.sheet.now }
    requires some_turns { 1 ≤ turns }
    requires few_turns { turns ≤ 10 ^ 12 }
    requires few_mixed_turns { sure ≡ false → turns ≤ 10000 }
    requires sure { IsTrue sure ↔ IsSureOn (⟦<Bench as Seen>⟧.view bench.old) left.now right.now }
    ensures line { IfOk result (IsLineOn (⟦<Bench as Seen>⟧.view bench.old) left.now right.now game.now turns) }
    ensures left_place { IfOk result (λ line. line.left ≡ left.now.place) }
    ensures right_place { IfOk result (λ line. line.right ≡ right.now.place) }
    ensures turns { IfOk result (λ line. line.turns ≡ turns) }
    ensures range { IfOk result (IsInRange turns) }
    ensures sides { IfOk result (λ _. AreSidesOn (⟦<Bench as Seen>⟧.view bench.old) left.now right.now) }
    ensures asked { IfOk result (λ _. IsAskedOn (⟦<Bench as Seen>⟧.view bench.old) (⟦<Bench as Seen>⟧.view bench.new) left.now right.now turns) }
    ensures none_fell { IfOk result (λ _. NoAdvancesFell (⟦<Bench as Seen>⟧.view bench.old) (⟦<Bench as Seen>⟧.view bench.new)) }
    ensures most { AtMostOn (⟦<Bench as Seen>⟧.view bench.old) (⟦<Bench as Seen>⟧.view bench.new) left.now right.now }
    ensures kept { KeepsBench (⟦<Bench as Seen>⟧.view bench.old) (⟦<Bench as Seen>⟧.view bench.new) }
{
    if sure {
        played_line(trail, bench, left, right, game, turns)
    } else {
        mixed_line(alloc, bench, left, right, game, turns)
    }
}
