//! Whether what a sheet plays on a bench leaves nothing to chance.
ghost use Rattle.std.specs.Prelude.{◌≡◌, ◌<◌, ◌↔◌, IsTrue, length};
ghost use Rattle.history_model.specs.Automaton.{IsSure};
ghost use Rattle.player_core.specs.State.{lasting_of};
ghost use Rattle.player_core.specs.Fits.{Fits};
ghost use Rattle.player_core.specs.Entry.{entry_on};
ghost use Rattle.player_core.specs.Counts.{NoneFell, returns_of, turns_of};
ghost use Rattle.player_core.specs.Bench.{KeepsBench, NoResumesFell, SameTurns};
ghost use Rattle.match_play.specs.Known.{IsKnownOn};
ghost use Rattle.match_play.specs.Match.{automaton_at};

use crate::on_bench::place_of;
use player_core::laws::{entries_play, keeping_lasts, one_change, sure_is_tested};
use player_core::{Bench, Player, Seats, Seen, Sheet, Side, is_sure, load_place};

// Whether the automaton of the player at a place of a side is sure; no advance is made.
#[tactic(auto, using(player_core::proofs::Sides::map_read, player_core::proofs::Sides::lasting_kept, player_core::proofs::Sides::turns_kept, player_core::proofs::Growing::returns_grown))]
fn is_sure_at(players: &mut Side, place: usize) -> bool
    requires { place < length (⟦<Side as Seats>⟧.seats players.old) }
    ensures value { IsTrue result ↔ IsSure (automaton_at (⟦<Side as Seats>⟧.seats players.old) place) }
    ensures lasting { lasting_of (⟦<Side as Seats>⟧.seats players.new) ≡ lasting_of (⟦<Side as Seats>⟧.seats players.old) }
    ensures turns { turns_of (⟦<Side as Seats>⟧.seats players.new) ≡ turns_of (⟦<Side as Seats>⟧.seats players.old) }
    ensures returns { NoneFell (returns_of (⟦<Side as Seats>⟧.seats players.old)) (returns_of (⟦<Side as Seats>⟧.seats players.new)) }
{
    sure_is_tested();
    is_sure(&mut players[place])
}

/// Whether every weight of what a sheet plays is 0 or the denominator. The left player that takes the
/// sheet is given it, and asked for the weight of each row. No advance is made, and no count of resumes
/// falls; the bench goes on fitting with the same plugs. Takes no memory.
pub fn is_sure_on(bench: &mut Bench, sheet: &Sheet) -> bool
    requires fits { Fits (⟦<Bench as Seen>⟧.view bench.old) }
    requires known { IsKnownOn (⟦<Bench as Seen>⟧.view bench.old) sheet.now }
    ensures value { IsTrue result ↔ IsSure (entry_on (⟦<Bench as Seen>⟧.view bench.old) sheet.now) }
    ensures kept { KeepsBench (⟦<Bench as Seen>⟧.view bench.old) (⟦<Bench as Seen>⟧.view bench.new) }
    ensures turns { SameTurns (⟦<Bench as Seen>⟧.view bench.old) (⟦<Bench as Seen>⟧.view bench.new) }
    ensures returns { NoResumesFell (⟦<Bench as Seen>⟧.view bench.old) (⟦<Bench as Seen>⟧.view bench.new) }
{
    entries_play();
    keeping_lasts();
    one_change();
    let place = place_of(bench, sheet);
    load_place(&mut bench.left, place, sheet);
    is_sure_at(&mut bench.left, place)
}
