//! Matches and tournaments of entrants, and their grids, by the rules of their sheets.
ghost use Rattle.std.specs.Prelude.{◌≡◌, ◌+◌, ◌*◌, ◌≤◌, ◌↔◌, All, IfOk, IsTrue, length};
ghost use Rattle.player_core.specs.State.{players_of};
ghost use Rattle.player_core.specs.Fits.{Fits};
ghost use Rattle.player_core.specs.Bench.{KeepsBench, SameTurns};
ghost use Rattle.player_core.specs.Counts.{Advanced, side_turns};
ghost use Rattle.product_chain.specs.Expected.{IsSureMatch};
ghost use Rattle.result_lines.specs.Totals.{entries_of};
ghost use Rattle.sheet_rules.specs.Entrants.{IsSurePair, automaton_of_entrant, entrant_of, entrants_of};
ghost use Rattle.sheet_rules.specs.RightLine.{IsRightLine};
ghost use Rattle.round_robin.specs.Contest.{ArePairs, IsShort, IsSureStrategy, strategy_of_entrant};
ghost use Rattle.round_robin.specs.Entries.{AreEntries, AreRightEntries, AreRightLines, EntriesAskedOn, EntriesAtMostOn, EntryAskedOn, EntryAtMostOn, IsEntry, IsGridOf, IsInRangeLess, IsShortPair, totals_by_rule};

use crate::laws::{entries_are_true, lines_hold};
use crate::{Contestant, Entrant, Totals, match_line, totals};
use history_model::{Game, Grid, NoMemory, Noise};
use match_play::{MatchLine, Trail, is_sure_on, tabulate_sheet};
use player_core::laws::{entries_play, keeping_lasts};
use player_core::{Bench, Player, Seen};
use sheet_rules::entrants_follow_their_rules;
use std::alloc::Global;

// Whether an entrant leaves nothing to chance: what its sheet plays draws no lots, and no move is flipped.
fn is_sure(bench: &mut Bench, entrant: &Contestant<'_>) -> bool
    requires fits { Fits (⟦<Bench as Seen>⟧.view bench.old) }
    requires entry { IsEntry (players_of (⟦<Bench as Seen>⟧.view bench.old)) (entrant_of entrant.now) }
    ensures value { IsTrue result ↔ IsSureStrategy (strategy_of_entrant (players_of (⟦<Bench as Seen>⟧.view bench.old)) (entrant_of entrant.now)) }
    ensures kept { KeepsBench (⟦<Bench as Seen>⟧.view bench.old) (⟦<Bench as Seen>⟧.view bench.new) }
    ensures turns { SameTurns (⟦<Bench as Seen>⟧.view bench.old) (⟦<Bench as Seen>⟧.view bench.new) }
{
    let noise: Noise = *entrant.noise;
    let sure = is_sure_on(bench, entrant.sheet);
    sure && noise.n == 0
}

// Whether neither of two entrants leaves anything to chance. No advance is made.
fn are_sure(bench: &mut Bench, left: &Contestant<'_>, right: &Contestant<'_>) -> bool
    requires fits { Fits (⟦<Bench as Seen>⟧.view bench.old) }
    requires left { IsEntry (players_of (⟦<Bench as Seen>⟧.view bench.old)) (entrant_of left.now) }
    requires right { IsEntry (players_of (⟦<Bench as Seen>⟧.view bench.old)) (entrant_of right.now) }
    ensures value { IsTrue result ↔ IsSurePair (players_of (⟦<Bench as Seen>⟧.view bench.old)) (entrant_of left.now) (entrant_of right.now) }
    ensures kept { KeepsBench (⟦<Bench as Seen>⟧.view bench.old) (⟦<Bench as Seen>⟧.view bench.new) }
    ensures turns { SameTurns (⟦<Bench as Seen>⟧.view bench.old) (⟦<Bench as Seen>⟧.view bench.new) }
{
    entries_play();
    keeping_lasts();
    let left_sure = is_sure(bench, left);
    let right_sure = is_sure(bench, right);
    left_sure && right_sure
}

/// The line of a match between two entrants: by the rules of their sheets it is right. A sure match has 1 to
/// 10^12 turns, any other 1 to 10,000; which it is, the bench tells. Each payoff counts the offset less, at most
/// 1,000,000. Places are 0 and 1, scores at most 10^30 units. No side makes more advances than the match takes at most, and the bench goes on fitting with the same
/// plugs, also without memory.
///
/// # Errors
///
/// `NoMemory` where the marks of a sure match or a match that isn't sure find no memory.
pub fn entry_line(
    alloc: Global,
    bench: &mut Bench,
    left: &Contestant<'_>,
    right: &Contestant<'_>,
    game: &Game,
    offset: u32,
    turns: u64,
) -> Result<MatchLine, NoMemory>
    requires fits { Fits (⟦<Bench as Seen>⟧.view bench.old) }
    requires left { IsEntry (players_of (⟦<Bench as Seen>⟧.view bench.old)) (entrant_of left.now) }
    requires right { IsEntry (players_of (⟦<Bench as Seen>⟧.view bench.old)) (entrant_of right.now) }
    requires some_turns { 1 ≤ turns }
    requires few_turns { IsShort (strategy_of_entrant (players_of (⟦<Bench as Seen>⟧.view bench.old)) (entrant_of left.now)) (strategy_of_entrant (players_of (⟦<Bench as Seen>⟧.view bench.old)) (entrant_of right.now)) turns }
    requires small { offset ≤ 1000000 }
    ensures right { IfOk result (IsRightLine (players_of (⟦<Bench as Seen>⟧.view bench.old)) game.now offset (entrant_of left.now) (entrant_of right.now)) }
    ensures turns { IfOk result (λ line. line.turns ≡ turns) }
    ensures range { IfOk result (IsInRangeLess offset turns) }
    ensures asked { IfOk result (λ _. EntryAskedOn (⟦<Bench as Seen>⟧.view bench.old) (⟦<Bench as Seen>⟧.view bench.new) (entrant_of left.now) (entrant_of right.now) turns) }
    ensures most { EntryAtMostOn (⟦<Bench as Seen>⟧.view bench.old) (⟦<Bench as Seen>⟧.view bench.new) (entrant_of left.now) (entrant_of right.now) }
    ensures kept { KeepsBench (⟦<Bench as Seen>⟧.view bench.old) (⟦<Bench as Seen>⟧.view bench.new) }
{
    entries_play();
    keeping_lasts();
    entries_are_true();
    let sure = are_sure(bench, left, right);
    let mut trail = Trail::new(alloc, 0)?;
    let left_side = Entrant {
        place: 0,
        sheet: left.sheet,
        noise: *left.noise,
    };
    let right_side = Entrant {
        place: 1,
        sheet: right.sheet,
        noise: *right.noise,
    };
    let line = match_line(
        alloc,
        &mut trail,
        bench,
        &left_side,
        &right_side,
        game,
        turns,
        sure,
    )?;
    Ok(line.lowered(offset))
}

/// The matches of the pairs of a tournament of 1 to 64 entrants, and what these make of them, as `totals` has
/// them, where each payoff counts the offset less, at most 1,000,000: by the rules of their sheets each line is
/// right for its pair, each total holds the true total, and each rank that is told is the true rank. No side makes more advances than all matches take at most, and the bench
/// goes on fitting with the same plugs, also without memory.
///
/// # Errors
///
/// `NoMemory` where the lines, the marks of a sure match or a match that isn't sure find no memory.
pub fn entry_totals(
    alloc: Global,
    bench: &mut Bench,
    entrants: &[Contestant<'_>],
    pairs: &[(u32, u32)],
    game: &Game,
    offset: u32,
    turns: u64,
) -> Result<Totals, NoMemory>
    requires fits { Fits (⟦<Bench as Seen>⟧.view bench.old) }
    requires entries { AreEntries (players_of (⟦<Bench as Seen>⟧.view bench.old)) (entrants_of entrants.now) }
    requires pairs { ArePairs (length (entrants_of entrants.now)) pairs.now }
    requires some_turns { 1 ≤ turns }
    requires few_turns { All (IsShortPair (players_of (⟦<Bench as Seen>⟧.view bench.old)) (entrants_of entrants.now) turns) pairs.now }
    requires small { offset ≤ 1000000 }
    ensures lines_right { IfOk result (λ totals. AreRightLines (players_of (⟦<Bench as Seen>⟧.view bench.old)) game.now offset turns (entrants_of entrants.now) pairs.now totals.matches) }
    ensures range { IfOk result (λ totals. All (IsInRangeLess offset turns) totals.matches) }
    ensures entries_right { IfOk result (λ totals. AreRightEntries (totals_by_rule (players_of (⟦<Bench as Seen>⟧.view bench.old)) game.now offset turns (entrants_of entrants.now) pairs.now) (length (entrants_of entrants.now)) totals.entries) }
    ensures entries { IfOk result (λ totals. totals.entries ≡ entries_of (length (entrants_of entrants.now)) totals.matches) }
    ensures asked { IfOk result (λ _. EntriesAskedOn (⟦<Bench as Seen>⟧.view bench.old) (⟦<Bench as Seen>⟧.view bench.new) (entrants_of entrants.now) turns pairs.now) }
    ensures most { EntriesAtMostOn (⟦<Bench as Seen>⟧.view bench.old) (⟦<Bench as Seen>⟧.view bench.new) (entrants_of entrants.now) pairs.now }
    ensures kept { KeepsBench (⟦<Bench as Seen>⟧.view bench.old) (⟦<Bench as Seen>⟧.view bench.new) }
{
    entries_are_true();
    lines_hold();
    // The payoffs are in range by their type.
    let _payoffs = game.unsigned();
    let raised = totals(alloc, bench, entrants, pairs, game, turns)?;
    raised.lowered(alloc, offset)
}

/// The grid of an entrant: what the left side's player that takes its sheet plays, read by four advances for
/// each of its at most 512 rows; without memory, by at most these. After every history it has the weight of C
/// that the rule of the sheet gives. The right side is not touched, and the bench goes on fitting with the same
/// plugs, also without memory.
///
/// # Errors
///
/// `NoMemory` where the grid finds no memory.
pub fn entry_grid(
    alloc: Global,
    bench: &mut Bench,
    entrant: &Contestant<'_>,
) -> Result<Grid, NoMemory>
    requires fits { Fits (⟦<Bench as Seen>⟧.view bench.old) }
    requires entry { IsEntry (players_of (⟦<Bench as Seen>⟧.view bench.old)) (entrant_of entrant.now) }
    ensures grid { IfOk result (IsGridOf (players_of (⟦<Bench as Seen>⟧.view bench.old)) (entrant_of entrant.now)) }
    ensures advanced { let old = ⟦<Bench as Seen>⟧.view bench.old in IfOk result (λ _. Advanced (4 * length (automaton_of_entrant (players_of old) (entrant_of entrant.now)).rows) old.left (⟦<Bench as Seen>⟧.view bench.new).left) }
    ensures most { let old = ⟦<Bench as Seen>⟧.view bench.old in side_turns (⟦<Bench as Seen>⟧.view bench.new).left ≤ side_turns old.left + 4 * length (automaton_of_entrant (players_of old) (entrant_of entrant.now)).rows }
    ensures right { (⟦<Bench as Seen>⟧.view bench.new).right ≡ (⟦<Bench as Seen>⟧.view bench.old).right }
    ensures kept { KeepsBench (⟦<Bench as Seen>⟧.view bench.old) (⟦<Bench as Seen>⟧.view bench.new) }
{
    entrants_follow_their_rules();
    tabulate_sheet(alloc, bench, entrant.sheet)
}
