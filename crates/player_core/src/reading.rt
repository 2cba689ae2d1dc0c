//! Automata of players, read by resuming every mark.
ghost use Rattle.std.specs.Prelude.{◌≡◌, ℕ, ◌*◌, ◌<◌, ◌≤◌, ◌↔◌, IsTrue, IfOk, length, map};
ghost use Rattle.history_model.specs.Automaton.{plain_row, row_at, weight_at, next_row};
ghost use Rattle.player_core.specs.State.{IsState, more};
ghost use Rattle.player_core.specs.Bench.{is_sure};

use crate::Player;
use crate::places::restart;
use history_model::{Grid, GridRow, Move, NoMemory};
use std::alloc::Global;

/// The row to which a play leads from a row, by one advance.
fn next_from(player: &mut Box<dyn Player>, mark: u32, mine: Move, theirs: Move) -> u32
    requires valid { IsState (state player.old) }
    requires mark { mark < length (state player.old).lasting.automaton.rows }
    ensures next { result ≡ next_row (state player.old).lasting.automaton mark (record { mine = mine; theirs = theirs }) }
    ensures lasting { (state player.new).lasting ≡ (state player.old).lasting }
    ensures turns { (state player.new).turns ≡ more (state player.old).turns 1 }
    ensures returns { (state player.old).returns ≤ (state player.new).returns }
    ensures valid { IsState (state player.new) }
{
    player.resume(mark);
    player.advance(mine, theirs);
    player.save()
}

/// The weight of a row.
fn weight_from(player: &mut Box<dyn Player>, mark: u32) -> u32
    requires valid { IsState (state player.old) }
    requires mark { mark < length (state player.old).lasting.automaton.rows }
    ensures weight { result ≡ weight_at (state player.old).lasting.automaton mark }
    ensures lasting { (state player.new).lasting ≡ (state player.old).lasting }
    ensures turns { (state player.new).turns ≡ (state player.old).turns }
    ensures returns { (state player.old).returns ≤ (state player.new).returns }
    ensures valid { IsState (state player.new) }
{
    player.resume(mark);
    player.weight()
}

/// A row, by four advances.
fn read_row(player: &mut Box<dyn Player>, mark: u32) -> GridRow
    requires valid { IsState (state player.old) }
    requires mark { mark < length (state player.old).lasting.automaton.rows }
    ensures row { plain_row result ≡ row_at (state player.old).lasting.automaton mark }
    ensures lasting { (state player.new).lasting ≡ (state player.old).lasting }
    ensures turns { (state player.new).turns ≡ more (state player.old).turns 4 }
    ensures returns { (state player.old).returns ≤ (state player.new).returns }
    ensures valid { IsState (state player.new) }
{
    let cc = next_from(player, mark, Move::C, Move::C);
    let cd = next_from(player, mark, Move::C, Move::D);
    let dc = next_from(player, mark, Move::D, Move::C);
    let dd = next_from(player, mark, Move::D, Move::D);
    let weight = weight_from(player, mark);
    GridRow {
        weight,
        next: [cc, cd, dc, dd],
    }
}

/// All rows.
fn read_rows(alloc: Global, player: &mut Box<dyn Player>) -> Result<Vec<GridRow>, NoMemory>
    ensures rows { IfOk result (λ v. map plain_row v.items ≡ (state player.old).lasting.automaton.rows) }
    ensures valid { IfOk result (λ _. IsState (state player.old)) }
    ensures lasting { (state player.new).lasting ≡ (state player.old).lasting }
    ensures turns { IfOk result (λ _. (state player.new).turns ≡ more (state player.old).turns (4 * length (state player.old).lasting.automaton.rows)) }
    ensures most_turns { (state player.new).turns ≤ more (state player.old).turns (4 * length (state player.old).lasting.automaton.rows) }
    ensures least_turns { (state player.old).turns ≤ (state player.new).turns }
    ensures returns { (state player.old).returns ≤ (state player.new).returns }
{
    let count = player.rows();
    let mut rows = Vec::new(alloc);
    for mark in 0..count {
        let row = read_row(player, mark);
        if rows.push(row).is_err() {
            return Err(NoMemory);
        }
    }
    Ok(rows)
}

/// The automaton of a player as a grid, read by resuming every mark. The automaton stays, and the
/// mark ends at the start, also without memory.
///
/// The player makes four advances for each row, one for each play; without memory, at most these.
///
/// # Errors
///
/// `NoMemory` where the grid finds no memory.
pub fn tabulate(alloc: Global, player: &mut Box<dyn Player>) -> Result<Grid, NoMemory>
    ensures grid { IfOk result (λ grid. grid ≡ (state player.old).lasting.automaton) }
    ensures lasting { (state player.new).lasting ≡ (state player.old).lasting }
    ensures starts { (state player.new).mark ≡ (state player.old).lasting.automaton.start }
    ensures turns { IfOk result (λ _. (state player.new).turns ≡ more (state player.old).turns (4 * length (state player.old).lasting.automaton.rows)) }
    ensures most_turns { (state player.new).turns ≤ more (state player.old).turns (4 * length (state player.old).lasting.automaton.rows) }
    ensures least_turns { (state player.old).turns ≤ (state player.new).turns }
    ensures returns { (state player.old).returns ≤ (state player.new).returns }
{
    let found = read_rows(alloc, player);
    restart(player);
    match found {
        Ok(rows) => {
            let den = player.den();
            let start = player.start();
            Ok(Grid { den, start, rows })
        }
        Err(error) => Err(error),
    }
}

// Whether two players agree in a row.
fn same_row(left: &mut Box<dyn Player>, right: &mut Box<dyn Player>, mark: u32) -> bool
    requires left_valid { IsState (state left.old) }
    requires right_valid { IsState (state right.old) }
    requires left { mark < length (state left.old).lasting.automaton.rows }
    requires right { mark < length (state right.old).lasting.automaton.rows }
    ensures same { IsTrue result ↔ row_at (state left.old).lasting.automaton mark ≡ row_at (state right.old).lasting.automaton mark }
    ensures left { (state left.new).lasting ≡ (state left.old).lasting }
    ensures right { (state right.new).lasting ≡ (state right.old).lasting }
    ensures left_returns { (state left.old).returns ≤ (state left.new).returns }
    ensures right_returns { (state right.old).returns ≤ (state right.new).returns }
    ensures left_valid { IsState (state left.new) }
    ensures right_valid { IsState (state right.new) }
{
    read_row(left, mark) == read_row(right, mark)
}

// Whether two players with equally many rows agree in each.
fn same_rows(left: &mut Box<dyn Player>, right: &mut Box<dyn Player>) -> bool
    requires left_valid { IsState (state left.old) }
    requires right_valid { IsState (state right.old) }
    requires rows { length (state left.old).lasting.automaton.rows ≡ length (state right.old).lasting.automaton.rows }
    ensures same { IsTrue result ↔ (state left.old).lasting.automaton.rows ≡ (state right.old).lasting.automaton.rows }
    ensures left { (state left.new).lasting ≡ (state left.old).lasting }
    ensures right { (state right.new).lasting ≡ (state right.old).lasting }
    ensures left_returns { (state left.old).returns ≤ (state left.new).returns }
    ensures right_returns { (state right.old).returns ≤ (state right.new).returns }
{
    for mark in 0..left.rows() {
        if !same_row(left, right, mark) {
            return false;
        }
    }
    true
}

/// Whether two players have equal automata.
pub fn same_automata(left: &mut Box<dyn Player>, right: &mut Box<dyn Player>) -> bool
    ensures same { IsTrue result ↔ (state left.old).lasting.automaton ≡ (state right.old).lasting.automaton }
    ensures left { (state left.new).lasting ≡ (state left.old).lasting }
    ensures right { (state right.new).lasting ≡ (state right.old).lasting }
    ensures left_returns { (state left.old).returns ≤ (state left.new).returns }
    ensures right_returns { (state right.old).returns ≤ (state right.new).returns }
{
    left.den() == right.den()
        && left.start() == right.start()
        && left.rows() == right.rows()
        && same_rows(left, right)
}

/// Whether every weight of a player's automaton is 0 or the denominator; no advance is made.
pub fn is_sure(player: &mut Box<dyn Player>) -> bool
    ensures sure { result ≡ is_sure (state player.old).lasting.automaton }
    ensures lasting { (state player.new).lasting ≡ (state player.old).lasting }
    ensures turns { (state player.new).turns ≡ (state player.old).turns }
    ensures returns { (state player.old).returns ≤ (state player.new).returns }
{
    let rows = player.rows();
    let den = player.den();
    for mark in 0..rows {
        let weight = weight_from(player, mark);
        if weight != 0 && weight != den {
            return false;
        }
    }
    true
}
