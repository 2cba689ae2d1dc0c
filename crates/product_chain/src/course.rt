//! The weights of the moves that are shown, and the rows that follow.
ghost use Rattle.std.specs.Prelude.{◌≡◌, ℕ, ◌≤◌, ◌<◌, ◌+◌, ◌*◌, length, IfOk, IfSome, slice_index_or};
ghost use Rattle.history_model.specs.Automaton.{IsAutomaton};
ghost use Rattle.history_model.specs.Noise.{IsFlipRate};
ghost use Rattle.history_model.specs.Expectation.{shown};
ghost use Rattle.product_chain.specs.Layer.{IsSide};
ghost use Rattle.product_chain.specs.Course.{AreAnswers, AreForks, AreRowWeights, AreWeights, IsCourse, IsAnswer, IsFork, IsInside};

use crate::side::Side;
use history_model::{Grid, Move, NoMemory, Noise};
use std::alloc::Global;

/// The weights with which a player at a row shows C and D, over the denominator of its moves.
#[derive(Clone, Copy)]
pub struct Weights {
    pub c: u64,
    pub d: u64,
}

/// The next rows of a player after a move of the side: where the other cooperates, and where it
/// defects.
#[derive(Clone, Copy, PartialEq, Eq)]
pub struct Fork {
    pub c: u32,
    pub d: u32,
}

/// Where a move of the side leads: the side's forks, each once, the place of the fork of each of its
/// rows, and the fork of each row of the other.
#[derive(Drop)]
pub struct Course {
    pub forks: Vec<Fork>,
    pub places: Vec<u32>,
    pub answers: Vec<Fork>,
}

// The weights over `den`·e with which a player of weight `weight`/`den` shows C and D.
fn shown_by(noise: &Noise, den: u32, weight: u32) -> Weights
    requires few { den ≤ 1000 }
    requires weighed { weight ≤ den }
    ensures c { result.c ≡ shown noise.now den weight Move.C }
    ensures d { result.d ≡ shown noise.now den weight Move.D }
    ensures sum { result.c + result.d ≡ den * noise.now.e }
    ensures few { result.c + result.d ≤ 1000000 }
{
    let flipped = noise.n as u64;
    let kept = noise.e as u64 - flipped;
    let rest = (den - weight) as u64;
    let weight = weight as u64;
    Weights {
        c: weight * kept + rest * flipped,
        d: weight * flipped + rest * kept,
    }
}

/// The weights of the moves that a player at a row shows.
pub fn shown_weights(grid: &Grid, noise: &Noise, row: u32) -> Weights
    requires { row < length grid.now.rows }
    ensures { AreWeights grid.now noise.now row result }
{
    shown_by(noise, grid.den, grid.row(row).weight)
}

/// The weights of the moves that each row shows.
pub fn row_weights(alloc: Global, grid: &Grid, noise: &Noise) -> Result<Vec<Weights>, NoMemory>
    ensures { IfOk result (λ all. AreRowWeights grid.now noise.now all.items) }
{
    let mut all = Vec::with_capacity(alloc, grid.len() as usize)?;
    for row in 0..grid.len() {
        all.push(shown_weights(grid, noise, row))?;
    }
    Ok(all)
}

// The next rows of the side after its move at a row.
fn own_fork(grid: &Grid, row: u32, mine: Move) -> Fork
    requires { row < length grid.now.rows }
    ensures fork { IsFork grid.now row mine result }
    ensures inside { IsInside (length grid.now.rows) result }
{
    let row = grid.row(row);
    Fork {
        c: row.next_after(mine, Move::C),
        d: row.next_after(mine, Move::D),
    }
}

// The next rows of the other after a move of the side.
fn other_fork(grid: &Grid, row: u32, mine: Move) -> Fork
    requires { row < length grid.now.rows }
    ensures { IsAnswer grid.now row mine result }
{
    let row = grid.row(row);
    Fork {
        c: row.next_after(Move::C, mine),
        d: row.next_after(Move::D, mine),
    }
}

// The place of a fork among others.
fn place_of(forks: &[Fork], fork: Fork) -> Option<usize>
    ensures within { IfSome result (λ k. k < length forks.now) }
    ensures value { IfSome result (λ k. (d : Fork) → slice_index_or forks.now k d ≡ fork) }
{
    for k in 0..forks.len() {
        if forks[k] == fork {
            return Some(k);
        }
    }
    None
}

// The forks of all rows, each once, and the place of each row's fork.
fn all_forks(alloc: Global, grid: &Grid, mine: Move) -> Result<(Vec<Fork>, Vec<u32>), NoMemory>
    ensures { IfOk result (λ all. AreForks grid.now mine all.0.items all.1.items) }
{
    let mut forks = Vec::with_capacity(alloc, grid.len() as usize)?;
    let mut places = Vec::with_capacity(alloc, grid.len() as usize)?;
    for row in 0..grid.len() {
        let fork = own_fork(grid, row, mine);
        match place_of(&forks, fork) {
            Some(place) => places.push(place as u32)?,
            None => {
                places.push(forks.len() as u32)?;
                forks.push(fork)?;
            }
        }
    }
    Ok((forks, places))
}

// The next rows of the other at each of its rows.
fn all_answers(alloc: Global, grid: &Grid, mine: Move) -> Result<Vec<Fork>, NoMemory>
    ensures { IfOk result (λ all. AreAnswers grid.now mine all.items) }
{
    let mut all = Vec::with_capacity(alloc, grid.len() as usize)?;
    for row in 0..grid.len() {
        all.push(other_fork(grid, row, mine))?;
    }
    Ok(all)
}

/// Where a move of the side leads.
pub fn course_of(alloc: Global, side: &Side, mine: Move) -> Result<Course, NoMemory>
    ensures { IfOk result (λ course. IsCourse side.now mine course) }
{
    let (forks, places) = all_forks(alloc, side.own, mine)?;
    Ok(Course {
        forks,
        places,
        answers: all_answers(alloc, side.other, mine)?,
    })
}
