//! The matches of a tournament, pair by pair.
ghost use Rattle.std.specs.Prelude.{ℕ, ◌≡◌, ◌≤◌, ◌<◌, ◌↔◌, All, List, IfOk, IsTrue, length};
ghost use Rattle.player_core.specs.State.{players_of};
ghost use Rattle.player_core.specs.Fits.{Fits};
ghost use Rattle.player_core.specs.Bench.{KeepsBench, NoAdvancesFell};
ghost use Rattle.round_robin.specs.Contest.{AreContestants, AreFewTurns, AreTold, IsContestant, IsPair, IsSurePair, IsSureStrategy, Strategy, strategy_at};
ghost use Rattle.round_robin.specs.OnBench.{AreAskedOn, AtMostForOn, PairAskedOn, PairAtMostOn, strategies_on};
ghost use Rattle.result_lines.specs.Totals.{HasScores};
ghost use Rattle.round_robin.specs.Totals.{AreLines, IsLineBetween};

use crate::sureness::{entrant, sure_ones};
use crate::{Contestant, match_line};
use history_model::{Game, NoMemory};
use match_play::{MatchLine, Trail};
use player_core::laws::{entries_play, keeping_lasts};
use player_core::{Bench, Player, Seen};
use std::alloc::Global;

// Whether the contestant at a place leaves nothing to chance, as is told of all.
fn is_sure(sure: &[bool], place: u32) -> bool
    requires { place < length sure.now }
    ensures { (strategies : List Strategy) → AreTold strategies sure.now → place < length strategies → IsTrue result ↔ IsSureStrategy (strategy_at strategies place) }
{
    sure[place as usize]
}

fn is_sure_pair(sure: &[bool], pair: (u32, u32)) -> bool
    requires { IsPair (length sure.now) pair }
    ensures { (strategies : List Strategy) → AreTold strategies sure.now → IsPair (length strategies) pair → IsTrue result ↔ IsSurePair strategies pair }
{
    is_sure(sure, pair.0) && is_sure(sure, pair.1)
}

// The line of a pair of contestants.
fn pair_line(
    alloc: Global,
    trail: &mut Trail,
    bench: &mut Bench,
    contestants: &[Contestant<'_>],
    pair: (u32, u32),
    sure: bool,
    game: &Game,
    turns: u64,
) -> Result<MatchLine, NoMemory>
    requires fits { Fits (⟦<Bench as Seen>⟧.view bench.old) }
    requires contestants { All (IsContestant (players_of (⟦<Bench as Seen>⟧.view bench.old))) contestants.now }
    requires pair { IsPair (length contestants.now) pair }
    requires sure { IsTrue sure ↔ IsSurePair (strategies_on (⟦<Bench as Seen>⟧.view bench.old) contestants.now) pair }
    requires some_turns { 1 ≤ turns }
    requires few_turns { AreFewTurns (strategies_on (⟦<Bench as Seen>⟧.view bench.old) contestants.now) turns pair }
    ensures line { IfOk result (IsLineBetween (strategies_on (⟦<Bench as Seen>⟧.view bench.old) contestants.now) game.now turns) }
    ensures left_place { IfOk result (λ line. line.left ≡ pair.0) }
    ensures right_place { IfOk result (λ line. line.right ≡ pair.1) }
    ensures scores { IfOk result HasScores }
    ensures asked { IfOk result (λ _. PairAskedOn (⟦<Bench as Seen>⟧.view bench.old) (⟦<Bench as Seen>⟧.view bench.new) contestants.now turns pair) }
    ensures none_fell { IfOk result (λ _. NoAdvancesFell (⟦<Bench as Seen>⟧.view bench.old) (⟦<Bench as Seen>⟧.view bench.new)) }
    ensures most { PairAtMostOn (⟦<Bench as Seen>⟧.view bench.old) (⟦<Bench as Seen>⟧.view bench.new) contestants.now pair }
    ensures kept { KeepsBench (⟦<Bench as Seen>⟧.view bench.old) (⟦<Bench as Seen>⟧.view bench.new) }
{
    let left = entrant(contestants, pair.0);
    let right = entrant(contestants, pair.1);
    let line = match_line(alloc, trail, bench, &left, &right, game, turns, sure)?;
    Ok(line)
}

// The lines of the pairs of contestants of which it is told whether they are sure.
fn told_lines(
    alloc: Global,
    trail: &mut Trail,
    bench: &mut Bench,
    contestants: &[Contestant<'_>],
    sure: &[bool],
    pairs: &[(u32, u32)],
    game: &Game,
    turns: u64,
) -> Result<Vec<MatchLine>, NoMemory>
    requires fits { Fits (⟦<Bench as Seen>⟧.view bench.old) }
    requires contestants { All (IsContestant (players_of (⟦<Bench as Seen>⟧.view bench.old))) contestants.now }
    requires sure { AreTold (strategies_on (⟦<Bench as Seen>⟧.view bench.old) contestants.now) sure.now }
    requires pairs { All (IsPair (length contestants.now)) pairs.now }
    requires some_turns { 1 ≤ turns }
    requires few_turns { All (AreFewTurns (strategies_on (⟦<Bench as Seen>⟧.view bench.old) contestants.now) turns) pairs.now }
    ensures lines { IfOk result (λ lines. AreLines (strategies_on (⟦<Bench as Seen>⟧.view bench.old) contestants.now) game.now turns pairs.now lines.items) }
    ensures scores { IfOk result (λ lines. All HasScores lines.items) }
    ensures asked { IfOk result (λ _. AreAskedOn (⟦<Bench as Seen>⟧.view bench.old) (⟦<Bench as Seen>⟧.view bench.new) contestants.now turns pairs.now) }
    ensures most { AtMostForOn (⟦<Bench as Seen>⟧.view bench.old) (⟦<Bench as Seen>⟧.view bench.new) contestants.now pairs.now }
    ensures kept { KeepsBench (⟦<Bench as Seen>⟧.view bench.old) (⟦<Bench as Seen>⟧.view bench.new) }
{
    entries_play();
    keeping_lasts();
    let mut lines = Vec::new(alloc);
    for pair in pairs {
        let both_sure = is_sure_pair(sure, *pair);
        let line = pair_line(
            alloc,
            trail,
            bench,
            contestants,
            *pair,
            both_sure,
            game,
            turns,
        )?;
        lines.push(line)?;
    }
    Ok(lines)
}

// The lines of the pairs of a tournament, in their order.
pub(crate) fn pair_lines(
    alloc: Global,
    trail: &mut Trail,
    bench: &mut Bench,
    contestants: &[Contestant<'_>],
    pairs: &[(u32, u32)],
    game: &Game,
    turns: u64,
) -> Result<Vec<MatchLine>, NoMemory>
    requires fits { Fits (⟦<Bench as Seen>⟧.view bench.old) }
    requires contestants { AreContestants (players_of (⟦<Bench as Seen>⟧.view bench.old)) contestants.now }
    requires pairs { All (IsPair (length contestants.now)) pairs.now }
    requires some_turns { 1 ≤ turns }
    requires few_turns { All (AreFewTurns (strategies_on (⟦<Bench as Seen>⟧.view bench.old) contestants.now) turns) pairs.now }
    ensures lines { IfOk result (λ lines. AreLines (strategies_on (⟦<Bench as Seen>⟧.view bench.old) contestants.now) game.now turns pairs.now lines.items) }
    ensures scores { IfOk result (λ lines. All HasScores lines.items) }
    ensures asked { IfOk result (λ _. AreAskedOn (⟦<Bench as Seen>⟧.view bench.old) (⟦<Bench as Seen>⟧.view bench.new) contestants.now turns pairs.now) }
    ensures most { AtMostForOn (⟦<Bench as Seen>⟧.view bench.old) (⟦<Bench as Seen>⟧.view bench.new) contestants.now pairs.now }
    ensures kept { KeepsBench (⟦<Bench as Seen>⟧.view bench.old) (⟦<Bench as Seen>⟧.view bench.new) }
{
    entries_play();
    keeping_lasts();
    let sure = sure_ones(bench, contestants);
    told_lines(alloc, trail, bench, contestants, &sure, pairs, game, turns)
}
