//! The automata that two sheets play on a bench, as grids.
ghost use Rattle.std.specs.Prelude.{◌≡◌, ◌+◌, ◌*◌, ◌≤◌, ◌<◌, IfOk, length};
ghost use Rattle.player_core.specs.State.{IsState, lasting_of, state_at};
ghost use Rattle.player_core.specs.Fits.{Fits};
ghost use Rattle.player_core.specs.Entry.{entry_on};
ghost use Rattle.history_model.specs.Automaton.{IsAutomaton};
ghost use Rattle.player_core.specs.Bench.{KeepsBench};
ghost use Rattle.player_core.specs.Counts.{Advanced, side_turns};
ghost use Rattle.match_play.specs.Known.{IsKnownOn};
ghost use Rattle.match_play.specs.Match.{ReadAtMostOn, automaton_at};

use crate::on_bench::place_of;
use history_model::{Grid, NoMemory};
use player_core::laws::{counts_add_up, entries_play, keeping_lasts, one_change};
use player_core::{Bench, Player, Seats, Seen, Sheet, Side, load_place, tabulate};
use std::alloc::Global;

// The number of rows of a player, which is valid.
pub(crate) fn rows_of(player: &Box<dyn Player>) -> u32
    ensures rows { result ≡ length (state player.now).lasting.automaton.rows }
    ensures valid { IsState (state player.now) }
{
    player.rows()
}

// The number of rows of the player at a place of a side, which is valid.
#[tactic(auto, using(player_core::proofs::Sides::map_read))]
pub(crate) fn rows_at(players: &Side, place: usize) -> u32
    requires { place < length (⟦<Side as Seats>⟧.seats players.now) }
    ensures rows { result ≡ length (state_at (⟦<Side as Seats>⟧.seats players.now) place).lasting.automaton.rows }
    ensures valid { IsState (state_at (⟦<Side as Seats>⟧.seats players.now) place) }
{
    rows_of(&players[place])
}

// The automaton of the player at a place of a side, which is advanced four times for each row; without
// memory, at most these.
#[tactic(auto, using(player_core::proofs::Sides::map_read, player_core::proofs::Sides::lasting_kept))]
pub(crate) fn tabulate_at(alloc: Global, players: &mut Side, place: usize) -> Result<Grid, NoMemory>
    requires { place < length (⟦<Side as Seats>⟧.seats players.old) }
    ensures grid { IfOk result (λ grid. grid ≡ automaton_at (⟦<Side as Seats>⟧.seats players.old) place) }
    ensures lasting { lasting_of (⟦<Side as Seats>⟧.seats players.new) ≡ lasting_of (⟦<Side as Seats>⟧.seats players.old) }
    ensures advanced { let old = ⟦<Side as Seats>⟧.seats players.old in IfOk result (λ _. Advanced (4 * length (automaton_at old place).rows) old (⟦<Side as Seats>⟧.seats players.new)) }
    ensures most { let old = ⟦<Side as Seats>⟧.seats players.old in side_turns (⟦<Side as Seats>⟧.seats players.new) ≤ side_turns old + 4 * length (automaton_at old place).rows }
    ensures valid { IsState (state_at (⟦<Side as Seats>⟧.seats players.old) place) }
{
    one_change();
    let _rows = rows_at(players, place);
    tabulate(alloc, &mut players[place])
}

/// Reads the automata that two sheets play: each side's player that takes its sheet is given it, and
/// is then read row by row, with four advances for each row; without memory, at most these. The bench
/// goes on fitting with the same plugs, also without memory.
///
/// # Errors
///
/// `NoMemory` where the grids find no memory.
pub fn tabulate_sheets(
    alloc: Global,
    bench: &mut Bench,
    left: &Sheet,
    right: &Sheet,
) -> Result<(Grid, Grid), NoMemory>
    requires fits { Fits (⟦<Bench as Seen>⟧.view bench.old) }
    requires left_known { IsKnownOn (⟦<Bench as Seen>⟧.view bench.old) left.now }
    requires right_known { IsKnownOn (⟦<Bench as Seen>⟧.view bench.old) right.now }
    ensures left_grid { IfOk result (λ grids. grids.0 ≡ entry_on (⟦<Bench as Seen>⟧.view bench.old) left.now) }
    ensures right_grid { IfOk result (λ grids. grids.1 ≡ entry_on (⟦<Bench as Seen>⟧.view bench.old) right.now) }
    ensures left_advanced { let old = ⟦<Bench as Seen>⟧.view bench.old in IfOk result (λ _. Advanced (4 * length (entry_on old left.now).rows) old.left (⟦<Bench as Seen>⟧.view bench.new).left) }
    ensures right_advanced { let old = ⟦<Bench as Seen>⟧.view bench.old in IfOk result (λ _. Advanced (4 * length (entry_on old right.now).rows) old.right (⟦<Bench as Seen>⟧.view bench.new).right) }
    ensures most { ReadAtMostOn (⟦<Bench as Seen>⟧.view bench.old) (⟦<Bench as Seen>⟧.view bench.new) left.now right.now }
    ensures kept { KeepsBench (⟦<Bench as Seen>⟧.view bench.old) (⟦<Bench as Seen>⟧.view bench.new) }
{
    keeping_lasts();
    entries_play();
    one_change();
    counts_add_up();
    let i = place_of(bench, left);
    let j = place_of(bench, right);
    bench.load(i, left, j, right);
    let left_grid = tabulate_at(alloc, &mut bench.left, i)?;
    let right_grid = tabulate_at(alloc, &mut bench.right, j)?;
    Ok((left_grid, right_grid))
}

/// Reads the automaton that a sheet plays: the left side's player that takes the sheet is given it, and is
/// then read row by row, with four advances for each row; without memory, at most these. The right side
/// is not touched. The bench goes on fitting with the same plugs, also without memory.
///
/// # Errors
///
/// `NoMemory` where the grid finds no memory.
pub fn tabulate_sheet(alloc: Global, bench: &mut Bench, sheet: &Sheet) -> Result<Grid, NoMemory>
    requires fits { Fits (⟦<Bench as Seen>⟧.view bench.old) }
    requires known { IsKnownOn (⟦<Bench as Seen>⟧.view bench.old) sheet.now }
    ensures grid { IfOk result (λ grid. grid ≡ entry_on (⟦<Bench as Seen>⟧.view bench.old) sheet.now) }
    ensures valid { IsAutomaton (entry_on (⟦<Bench as Seen>⟧.view bench.old) sheet.now) }
    ensures advanced { let old = ⟦<Bench as Seen>⟧.view bench.old in IfOk result (λ _. Advanced (4 * length (entry_on old sheet.now).rows) old.left (⟦<Bench as Seen>⟧.view bench.new).left) }
    ensures most { let old = ⟦<Bench as Seen>⟧.view bench.old in side_turns (⟦<Bench as Seen>⟧.view bench.new).left ≤ side_turns old.left + 4 * length (entry_on old sheet.now).rows }
    ensures right { (⟦<Bench as Seen>⟧.view bench.new).right ≡ (⟦<Bench as Seen>⟧.view bench.old).right }
    ensures kept { KeepsBench (⟦<Bench as Seen>⟧.view bench.old) (⟦<Bench as Seen>⟧.view bench.new) }
{
    keeping_lasts();
    entries_play();
    one_change();
    counts_add_up();
    let place = place_of(bench, sheet);
    load_place(&mut bench.left, place, sheet);
    tabulate_at(alloc, &mut bench.left, place)
}
