//! What the responder meets, as data that is at hand in each turn.
ghost use Rattle.std.specs.Prelude.{◌≡◌, ◌+◌, ◌*◌, ◌^◌, ◌≤◌, ◌<◌, length, IfOk};
ghost use Rattle.history_model.specs.Expectation.{shown};
ghost use Rattle.history_model.specs.Game.{IsGame};
ghost use Rattle.fixed_span.specs.Span.{score_units};
ghost use Rattle.strategy_trees.specs.Contest.{rows, one_play, IsContest};
ghost use Rattle.best_turns.specs.Meeting.{met, AreStances, IsPrepared, IsStance, IsTerms};

use history_model::{Game, Grid, Move, NoMemory, Noise};
use std::alloc::Global;

const UNITS: u128 = 1_000_000_000_000;

/// An opponent, the flips of both sides' moves, and the payoffs to the responder.
#[derive(Clone, Copy)]
pub struct Meeting<'a> {
    pub own_noise: &'a Noise,
    pub opponent: &'a Grid,
    pub noise: &'a Noise,
    pub game: &'a Game,
}

/// What the opponent does at a row: the weights with which it is seen to play C and D, and its next
/// row after each play of (responder's move, opponent's move).
#[derive(Clone, Copy)]
pub struct Stance {
    pub c: u64,
    pub d: u64,
    pub cc: u32,
    pub cd: u32,
    pub dc: u32,
    pub dd: u32,
}

/// What all rows have in common: the weights with which the own move is kept and flipped, the payoffs
/// in units of 10^-12, and the denominator of one play.
#[derive(Clone, Copy)]
pub struct Terms {
    pub kept: u64,
    pub flipped: u64,
    pub r: u128,
    pub s: u128,
    pub t: u128,
    pub p: u128,
    pub q: u64,
}

/// All that the turns have in common.
#[derive(Drop)]
pub struct Prepared<'a> {
    pub meeting: &'a Meeting<'a>,
    pub terms: Terms,
    pub stances: Vec<Stance>,
}

// The weights over `den`·e with which a player of weight `weight`/`den` is seen to play C and D.
fn shown_by(noise: &Noise, den: u32, weight: u32) -> (u64, u64)
    requires few { den ≤ 1000 }
    requires weighed { weight ≤ den }
    ensures c { result.0 ≡ shown noise.now den weight Move.C }
    ensures d { result.1 ≡ shown noise.now den weight Move.D }
    ensures few { result.0 + result.1 ≤ 1000000 }
{
    let flipped = noise.n as u64;
    let kept = noise.e as u64 - flipped;
    let rest = (den - weight) as u64;
    let weight = weight as u64;
    (
        weight * kept + rest * flipped,
        weight * flipped + rest * kept,
    )
}

fn stance_at(meeting: &Meeting, row: u32) -> Stance
    requires { row < rows (met meeting.now) }
    ensures { IsStance (met meeting.now) row result }
{
    let opponent = meeting.opponent;
    let at = opponent.row(row);
    let (c, d) = shown_by(meeting.noise, opponent.den, at.weight);
    Stance {
        c,
        d,
        cc: at.next_after(Move::C, Move::C),
        cd: at.next_after(Move::D, Move::C),
        dc: at.next_after(Move::C, Move::D),
        dd: at.next_after(Move::D, Move::D),
    }
}

fn stances_of(alloc: Global, meeting: &Meeting) -> Result<Vec<Stance>, NoMemory>
    ensures { IfOk result (λ all. AreStances (met meeting.now) (rows (met meeting.now)) all.items) }
{
    let mut all = Vec::with_capacity(alloc, meeting.opponent.len() as usize)?;
    for row in 0..meeting.opponent.len() {
        all.push(stance_at(meeting, row))?;
    }
    Ok(all)
}

// A payoff in units.
fn in_units(payoff: u64) -> u128
    requires { payoff ≤ 1000000 }
    ensures value { result ≡ payoff * score_units }
    ensures few { result ≤ 10 ^ 18 }
{
    payoff as u128 * UNITS
}

// The denominator of one play.
fn play_of(meeting: &Meeting) -> u64
    ensures value { result ≡ one_play (met meeting.now) }
    ensures some { 1 ≤ result }
    ensures few { result ≤ 10 ^ 9 }
    ensures contest { IsContest (met meeting.now) }
{
    let opponent = meeting.opponent;
    let own = meeting.own_noise.denominator() as u64;
    let other = meeting.noise.denominator() as u64;
    own * (opponent.den as u64 * other)
}

fn terms_of(meeting: &Meeting) -> Terms
    ensures terms { IsTerms (met meeting.now) result }
    ensures contest { IsContest (met meeting.now) }
    ensures game { IsGame (meeting.now.game.now) }
{
    let (r, s, t, p) = meeting.game.unsigned();
    let own_noise = meeting.own_noise;
    let flipped = own_noise.n as u64;
    Terms {
        kept: own_noise.e as u64 - flipped,
        flipped,
        r: in_units(r),
        s: in_units(s),
        t: in_units(t),
        p: in_units(p),
        q: play_of(meeting),
    }
}

/// What the turns have in common.
pub fn prepare<'a>(alloc: Global, meeting: &'a Meeting<'a>) -> Result<Prepared<'a>, NoMemory>
    ensures prepared { IfOk result IsPrepared }
    ensures meeting { IfOk result (λ prepared. prepared.meeting.now ≡ meeting.now) }
{
    Ok(Prepared {
        meeting,
        terms: terms_of(meeting),
        stances: stances_of(alloc, meeting)?,
    })
}
