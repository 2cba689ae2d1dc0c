//! Tournaments on a bench.
ghost use Rattle.std.specs.Prelude.{ℕ, ◌≡◌, ◌≤◌, All, IfOk, length};
ghost use Rattle.player_core.specs.State.{players_of};
ghost use Rattle.player_core.specs.Fits.{Fits};
ghost use Rattle.player_core.specs.Bench.{KeepsBench};
ghost use Rattle.round_robin.specs.Contest.{AreContestants, AreFewTurns, ArePairs};
ghost use Rattle.round_robin.specs.OnBench.{AreAskedOn, AtMostForOn, strategies_on};
ghost use Rattle.result_lines.specs.Totals.{entries_of};
ghost use Rattle.round_robin.specs.Totals.{AreLines};

use crate::pairing::pair_lines;
use crate::{Contestant, EntryLines, MatchLines, Totals};
use history_model::{Game, NoMemory};
use match_play::Trail;
use player_core::{Bench, Player, Seen};
use result_lines::entries_of;
use std::alloc::Global;

/// The matches of the pairs of a tournament of 1 to 64 contestants, in the order of the pairs, and what
/// the contestants make of them. A pair has the places of two contestants, the smaller first; the pairs
/// are in strictly ascending order. Each match is between the players that take the two sheets: a sure
/// one, of at most 10^12 turns, is followed until a pair of rows comes again, and of any other, of at
/// most 10,000 turns, both players are read. Each contestant is asked once, before the first match,
/// whether it is sure. No side makes more advances than its matches together take at most, and the bench
/// goes on fitting with the same plugs, also without memory.
///
/// # Errors
///
/// `NoMemory` where the lines, the marks of a sure match or a match that isn't sure find no memory.
pub fn totals(
    alloc: Global,
    bench: &mut Bench,
    contestants: &[Contestant<'_>],
    pairs: &[(u32, u32)],
    game: &Game,
    turns: u64,
) -> Result<Totals, NoMemory>
    requires fits { Fits (⟦<Bench as Seen>⟧.view bench.old) }
    requires contestants { AreContestants (players_of (⟦<Bench as Seen>⟧.view bench.old)) contestants.now }
    requires pairs { ArePairs (length contestants.now) pairs.now }
    requires some_turns { 1 ≤ turns }
    requires few_turns { All (AreFewTurns (strategies_on (⟦<Bench as Seen>⟧.view bench.old) contestants.now) turns) pairs.now }
    ensures lines { IfOk result (λ totals. AreLines (strategies_on (⟦<Bench as Seen>⟧.view bench.old) contestants.now) game.now turns pairs.now totals.matches) }
    ensures entries { IfOk result (λ totals. totals.entries ≡ entries_of (length contestants.now) totals.matches) }
    ensures asked { IfOk result (λ _. AreAskedOn (⟦<Bench as Seen>⟧.view bench.old) (⟦<Bench as Seen>⟧.view bench.new) contestants.now turns pairs.now) }
    ensures most { AtMostForOn (⟦<Bench as Seen>⟧.view bench.old) (⟦<Bench as Seen>⟧.view bench.new) contestants.now pairs.now }
    ensures kept { KeepsBench (⟦<Bench as Seen>⟧.view bench.old) (⟦<Bench as Seen>⟧.view bench.new) }
{
    let mut trail = Trail::new(alloc, 0)?;
    let lines = pair_lines(alloc, &mut trail, bench, contestants, pairs, game, turns)?;
    let entries = entries_of(alloc, &lines, contestants.len() as u32)?;
    Ok(Totals {
        matches: MatchLines::from_vec(lines),
        entries: EntryLines::from_vec(entries),
    })
}
