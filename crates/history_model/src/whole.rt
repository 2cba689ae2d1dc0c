//! Expected scores by going through every history.
ghost use Rattle.std.specs.Prelude.{◌≡◌, ◌+◌, ◌*◌, ◌^◌, ◌<◌, ◌≤◌, length, pos};
ghost use Rattle.history_model.specs.Automaton.{IsAutomaton};
ghost use Rattle.history_model.specs.Expectation.{expectation, player, quotient, shown};
ghost use Rattle.history_model.specs.Game.{pay, IsGame};
ghost use Rattle.history_model.specs.Noise.{IsFlipRate};
ghost use Rattle.history_model.specs.Whole.{from_play, from_rows, one_play, AreSides, SumsFit};

use crate::{Game, Grid, Move, Noise};

/// The two weighted sums over all histories, and the denominator that they share: the expected
/// score of the left player is the fraction `left`/`over`.
#[derive(Clone, Copy, Debug, PartialEq, Eq)]
pub struct WholePair {
    pub left: i128,
    pub right: i128,
    pub over: i128,
}

/// The expected scores of `n` turns, by going through all 4^`n` histories. `n` is at most 8, and the
/// denominator of one play, to the power `n`, times (`n` + 1)·1,000,000, is below 2^126. Takes no
/// memory.
pub fn play_all(
    a: &Grid,
    b: &Grid,
    game: &Game,
    a_noise: &Noise,
    b_noise: &Noise,
    n: u32,
) -> WholePair
    requires few_turns { n ≤ 8 }
    requires fits { quotient (player a.now) a_noise.now (player b.now) b_noise.now ^ n * (n + 1) * 1000000 < 2 ^ 126 }
    ensures left { result.left ≡ expectation (player a.now) a_noise.now (player b.now) b_noise.now game.now 0 n }
    ensures right { result.right ≡ expectation (player b.now) b_noise.now (player a.now) a_noise.now game.now 0 n }
    ensures over { result.over ≡ pos (quotient (player a.now) a_noise.now (player b.now) b_noise.now ^ n) }
{
    let left_view = Match {
        a,
        a_noise,
        b,
        b_noise,
        game,
    };
    let right_view = Match {
        a: b,
        a_noise: b_noise,
        b: a,
        b_noise: a_noise,
        game,
    };
    WholePair {
        left: expected(&left_view, n),
        right: expected(&right_view, n),
        over: one_play(&left_view).pow(n) as i128,
    }
}

// A match as its player `a` sees it.
#[derive(Clone, Copy)]
struct Match<'a> {
    a: &'a Grid,
    a_noise: &'a Noise,
    b: &'a Grid,
    b_noise: &'a Noise,
    game: &'a Game,
}

// What `a` expects in `n` turns from the starts.
fn expected(seen: &Match, n: u32) -> i128
    requires { SumsFit seen.now n }
    ensures { result ≡ pos (from_rows seen.now n seen.now.a.now.start seen.now.b.now.start) }
{
    expected_from(seen, n, seen.a.start(), seen.b.start()) as i128
}

// What `a` expects in `n` turns, with itself at row `u` and the other at row `v`.
#[cycle(expected)]
fn expected_from(seen: &Match, n: u32, u: u32, v: u32) -> u128
    requires u { u < length seen.now.a.now.rows }
    requires v { v < length seen.now.b.now.rows }
    requires room { SumsFit seen.now n }
    ensures most { result ≤ n * 1000000 * one_play seen.now ^ n }
    ensures value { result ≡ from_rows seen.now n u v }
{
    if n == 0 {
        return 0;
    }
    expected_with(seen, n - 1, u, v, Move::C, Move::C)
        + expected_with(seen, n - 1, u, v, Move::C, Move::D)
        + expected_with(seen, n - 1, u, v, Move::D, Move::C)
        + expected_with(seen, n - 1, u, v, Move::D, Move::D)
}

// The part of it that begins with a play, which `rest` turns follow.
#[cycle(expected)]
fn expected_with(seen: &Match, rest: u32, u: u32, v: u32, mine: Move, theirs: Move) -> u128
    requires u { u < length seen.now.a.now.rows }
    requires v { v < length seen.now.b.now.rows }
    requires room { SumsFit seen.now (rest + 1) }
    ensures few { result < 2 ^ 126 }
    ensures value { result ≡ from_play seen.now rest u v mine theirs }
    ensures sides { AreSides seen.now }
    ensures game { IsGame seen.now.game.now }
{
    let a_row = seen.a.row(u);
    let b_row = seen.b.row(v);
    let over = over_rest(seen, rest);
    let later = expected_from(
        seen,
        rest,
        a_row.next_after(mine, theirs),
        b_row.next_after(theirs, mine),
    );
    let paid = pay(seen.game, mine, theirs) as u128 * over + later;
    weight(seen, a_row.weight, b_row.weight, mine, theirs) * paid
}

// The denominator of `rest` plays.
fn over_rest(seen: &Match, rest: u32) -> u128
    requires { SumsFit seen.now (rest + 1) }
    ensures value { result ≡ one_play seen.now ^ rest }
    ensures some { 1 ≤ one_play seen.now }
    ensures sides { AreSides seen.now }
{
    one_play(seen).pow(rest)
}

// The weight of a play where the players choose C by the weights `a_weight` and `b_weight`.
fn weight(seen: &Match, a_weight: u32, b_weight: u32, mine: Move, theirs: Move) -> u128
    requires a { a_weight ≤ seen.now.a.now.den }
    requires b { b_weight ≤ seen.now.b.now.den }
    ensures value { result ≡ shown seen.now.a_noise.now seen.now.a.now.den a_weight mine * shown seen.now.b_noise.now seen.now.b.now.den b_weight theirs }
    ensures within { result ≤ one_play seen.now }
{
    let a_shown = seen.a_noise.shown(seen.a.denominator(), a_weight, mine);
    let b_shown = seen.b_noise.shown(seen.b.denominator(), b_weight, theirs);
    a_shown as u128 * b_shown as u128
}

// What a play pays.
fn pay(game: &Game, mine: Move, theirs: Move) -> u64
    ensures value { result ≡ pay game.now mine theirs }
    ensures few { result ≤ 1000000 }
    ensures game { IsGame game.now }
{
    game.pay(mine, theirs) as u64
}

// The denominator of one play.
fn one_play(seen: &Match) -> u128
    ensures value { result ≡ one_play seen.now }
    ensures some { 1 ≤ result }
    ensures few { result ≤ 10 ^ 12 }
    ensures sides { AreSides seen.now }
{
    unit(seen.a, seen.a_noise) as u128 * unit(seen.b, seen.b_noise) as u128
}

// The denominator of a shown weight.
fn unit(grid: &Grid, noise: &Noise) -> u64
    ensures value { result ≡ grid.now.den * noise.now.e }
    ensures some { 1 ≤ result }
    ensures few { result ≤ 1000000 }
    ensures automaton { IsAutomaton grid.now }
    ensures rate { IsFlipRate noise.now }
{
    grid.denominator() as u64 * noise.denominator() as u64
}
