//! Which contestants leave nothing to chance: the bench tells it, each is asked once.
ghost use Rattle.std.specs.Prelude.{ℕ, ◌≡◌, ◌≤◌, ◌<◌, ◌↔◌, All, List, IsTrue, length};
ghost use Rattle.player_core.specs.State.{Lasting, players_of};
ghost use Rattle.player_core.specs.Fits.{Fits};
ghost use Rattle.player_core.specs.Entry.{entry_automaton};
ghost use Rattle.player_core.specs.Bench.{KeepsBench, NoResumesFell, SameTurns};
ghost use Rattle.match_play.specs.Known.{IsKnown};
ghost use Rattle.round_robin.specs.Contest.{AreContestants, AreTold, IsContestant, IsSureStrategy, strategies_of, strategy_at};
ghost use Rattle.round_robin.specs.OnBench.{strategies_on};

use crate::{Contestant, Entrant};
use match_play::is_sure_on;
use player_core::laws::{entries_play, keeping_lasts};
use player_core::{Bench, Player, Seen};

// The contestant at a place, as a side of a match.
pub(crate) fn entrant<'a>(contestants: &[Contestant<'a>], place: u32) -> Entrant<'a>
    requires { place < length contestants.now }
    ensures place { result.place ≡ place }
    ensures strategy { (players : List Lasting) → strategy_at (strategies_of players contestants.now) place ≡ record { automaton = entry_automaton players result.sheet.now; noise = result.noise } }
    ensures known { (players : List Lasting) → All (IsContestant players) contestants.now → IsKnown players result.sheet.now }
{
    let contestant = &contestants[place as usize];
    Entrant {
        place,
        sheet: contestant.sheet,
        noise: *contestant.noise,
    }
}

// Whether the contestant at a place leaves nothing to chance: what its sheet plays draws no lots, and no
// move is flipped.
fn is_sure_one(bench: &mut Bench, contestants: &[Contestant<'_>], place: u32) -> bool
    requires fits { Fits (⟦<Bench as Seen>⟧.view bench.old) }
    requires contestants { All (IsContestant (players_of (⟦<Bench as Seen>⟧.view bench.old))) contestants.now }
    requires place { place < length contestants.now }
    ensures value { IsTrue result ↔ IsSureStrategy (strategy_at (strategies_on (⟦<Bench as Seen>⟧.view bench.old) contestants.now) place) }
    ensures kept { KeepsBench (⟦<Bench as Seen>⟧.view bench.old) (⟦<Bench as Seen>⟧.view bench.new) }
    ensures turns { SameTurns (⟦<Bench as Seen>⟧.view bench.old) (⟦<Bench as Seen>⟧.view bench.new) }
    ensures returns { NoResumesFell (⟦<Bench as Seen>⟧.view bench.old) (⟦<Bench as Seen>⟧.view bench.new) }
{
    let own = entrant(contestants, place);
    let sure = is_sure_on(bench, own.sheet);
    sure && own.noise.n == 0
}

// Whether each contestant leaves nothing to chance, in their order. No advance is made.
pub(crate) fn sure_ones(bench: &mut Bench, contestants: &[Contestant<'_>]) -> [bool; 64]
    requires fits { Fits (⟦<Bench as Seen>⟧.view bench.old) }
    requires contestants { AreContestants (players_of (⟦<Bench as Seen>⟧.view bench.old)) contestants.now }
    ensures told { AreTold (strategies_on (⟦<Bench as Seen>⟧.view bench.old) contestants.now) result }
    ensures kept { KeepsBench (⟦<Bench as Seen>⟧.view bench.old) (⟦<Bench as Seen>⟧.view bench.new) }
    ensures turns { SameTurns (⟦<Bench as Seen>⟧.view bench.old) (⟦<Bench as Seen>⟧.view bench.new) }
    ensures returns { NoResumesFell (⟦<Bench as Seen>⟧.view bench.old) (⟦<Bench as Seen>⟧.view bench.new) }
{
    entries_play();
    keeping_lasts();
    let mut sure = [false; 64];
    for place in 0..contestants.len() {
        sure[place] = is_sure_one(bench, contestants, place as u32);
    }
    sure
}
