//! Own moves as ways from row to row of the opponent.
ghost use Rattle.std.specs.Prelude.{◌≡◌, ◌+◌, ◌^◌, ◌≤◌, ◌<◌, length, IfOk};
ghost use Rattle.history_model.specs.Automaton.{IsAutomaton};
ghost use Rattle.history_model.specs.Game.{IsGame};
ghost use Rattle.history_model.specs.Mean.{step};
ghost use Rattle.history_model.specs.Path.{sure_move};
ghost use Rattle.mean_response.specs.Graph.{opponent_of, game_of, AreExits, IsExit, IsGraph};

use history_model::{Game, Grid, Move, NoMemory};
use std::alloc::Global;

/// Where an own move leads, and what it is paid.
#[derive(Clone, Copy)]
pub struct Exit {
    pub to: u32,
    pub points: u64,
}

/// Both ways out of a row.
#[derive(Clone, Copy)]
pub struct Exits {
    pub c: Exit,
    pub d: Exit,
}

/// The rows of a sure opponent, with both ways out of each.
#[derive(Drop)]
pub struct Graph<'a> {
    pub opponent: &'a Grid,
    pub game: &'a Game,
    pub exits: Vec<Exits>,
}

// The move of a sure opponent.
fn theirs_at(grid: &Grid, row: u32) -> Move
    requires { row < length grid.now.rows }
    ensures { result ≡ sure_move grid.now row }
{
    if grid.row(row).weight == grid.den {
        Move::C
    } else {
        Move::D
    }
}

// Where an own move leads.
fn next_row(grid: &Grid, row: u32, theirs: Move, mine: Move) -> u32
    requires row { row < length grid.now.rows }
    requires theirs { theirs ≡ sure_move grid.now row }
    ensures value { result ≡ step grid.now row mine }
    ensures inside { result < length grid.now.rows }
    ensures automaton { IsAutomaton grid.now }
{
    grid.row(row).next_after(theirs, mine)
}

fn exit_by(grid: &Grid, game: &Game, row: u32, mine: Move) -> Exit
    requires { row < length grid.now.rows }
    ensures exit { IsExit grid.now game.now row mine result }
    ensures automaton { IsAutomaton grid.now }
    ensures game { IsGame game.now }
{
    let theirs = theirs_at(grid, row);
    Exit {
        to: next_row(grid, row, theirs, mine),
        points: game.pay(mine, theirs) as u64,
    }
}

fn exits_of(alloc: Global, grid: &Grid, game: &Game) -> Result<Vec<Exits>, NoMemory>
    ensures exits { IfOk result (λ all. AreExits grid.now game.now (length grid.now.rows) all.items) }
{
    let mut all = Vec::with_capacity(alloc, grid.len() as usize)?;
    for row in 0..grid.len() {
        all.push(Exits {
            c: exit_by(grid, game, row, Move::C),
            d: exit_by(grid, game, row, Move::D),
        })?;
    }
    Ok(all)
}

/// The graph of an opponent.
pub fn graph_of<'a>(
    alloc: Global,
    opponent: &'a Grid,
    game: &'a Game,
) -> Result<Graph<'a>, NoMemory>
    ensures graph { IfOk result IsGraph }
    ensures opponent { IfOk result (λ graph. opponent_of graph ≡ opponent.now) }
    ensures game { IfOk result (λ graph. game_of graph ≡ game.now) }
{
    let _start = exit_by(opponent, game, opponent.start, Move::C);
    Ok(Graph {
        opponent,
        game,
        exits: exits_of(alloc, opponent, game)?,
    })
}

impl Graph<'_> {
    /// The number of rows.
    pub fn len(&self) -> usize
        requires { IsGraph self.now }
        ensures value { result ≡ length (opponent_of self.now).rows }
        ensures few { result ≤ 512 }
    {
        self.exits.len()
    }

    /// The row at which a match begins.
    pub fn start(&self) -> usize
        requires { IsGraph self.now }
        ensures value { result ≡ (opponent_of self.now).start }
        ensures inside { result < length (opponent_of self.now).rows }
    {
        let opponent = self.opponent;
        opponent.start as usize
    }

    /// The way out of a row by an own move.
    pub fn exit(&self, row: usize, mine: Move) -> Exit
        requires graph { IsGraph self.now }
        requires row { row < length (opponent_of self.now).rows }
        ensures { IsExit (opponent_of self.now) (game_of self.now) row mine result }
    {
        let exits = self.exits[row];
        match mine {
            Move::C => exits.c,
            Move::D => exits.d,
        }
    }
}
