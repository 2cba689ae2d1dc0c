//! A match of two sheets, on a bench.
ghost use Rattle.std.specs.Prelude.{◌≡◌, ◌<◌, ◌≤◌, ◌^◌, length, slice_set};
ghost use Rattle.history_model.specs.Automaton.{IsAutomaton, IsSure};
ghost use Rattle.history_model.specs.History.{turned};
ghost use Rattle.history_model.specs.Tally.{counts, total};
ghost use Rattle.player_core.specs.State.{IsState, state_at};
ghost use Rattle.player_core.specs.Fits.{Fits, IsPlaceOn};
ghost use Rattle.player_core.specs.Entry.{entry_on};
ghost use Rattle.player_core.specs.Bench.{KeepsBench};
ghost use Rattle.match_play.specs.Known.{IsKnownOn};
ghost use Rattle.match_play.specs.Match.{BothAdvanced, HavePlayed, after_match, automaton_at, path_at, path_on};

use crate::play;
use history_model::{Tally, counts_are_paid};
use player_core::laws::{counts_add_up, entries_play, keeping_lasts, one_change};
use player_core::{Bench, Player, Seen, Sheet};

// A match between a left and a right player of the bench, as they are loaded.
#[tactic(auto, using(player_core::proofs::Sides::map_read))]
fn play_at(bench: &mut Bench, i: usize, j: usize, turns: u64) -> Tally
    requires left { i < length (⟦<Bench as Seen>⟧.view bench.old).left }
    requires right { j < length (⟦<Bench as Seen>⟧.view bench.old).right }
    requires sure_left { IsSure (automaton_at (⟦<Bench as Seen>⟧.view bench.old).left i) }
    requires sure_right { IsSure (automaton_at (⟦<Bench as Seen>⟧.view bench.old).right j) }
    requires turns { turns ≤ 10 ^ 12 }
    ensures tally { result ≡ counts (path_at (⟦<Bench as Seen>⟧.view bench.old) i j turns) }
    ensures total { total result ≡ turns }
    ensures left { let old = ⟦<Bench as Seen>⟧.view bench.old in (⟦<Bench as Seen>⟧.view bench.new).left ≡ slice_set old.left i (after_match (state_at old.left i) (path_at old i j turns)) }
    ensures right { let old = ⟦<Bench as Seen>⟧.view bench.old in (⟦<Bench as Seen>⟧.view bench.new).right ≡ slice_set old.right j (after_match (state_at old.right j) (turned (path_at old i j turns))) }
    ensures left_valid { IsState (state_at (⟦<Bench as Seen>⟧.view bench.old).left i) }
    ensures right_valid { IsState (state_at (⟦<Bench as Seen>⟧.view bench.old).right j) }
{
    play(&mut bench.left[i], &mut bench.right[j], turns)
}

// The place whose players take the sheet.
pub(crate) fn place_of(bench: &Bench, sheet: &Sheet) -> usize
    requires fits { Fits (⟦<Bench as Seen>⟧.view bench.now) }
    requires known { IsKnownOn (⟦<Bench as Seen>⟧.view bench.now) sheet.now }
    ensures { IsPlaceOn (⟦<Bench as Seen>⟧.view bench.now) sheet.now result }
{
    match bench.place(sheet) {
        Some(place) => place as usize,
        None => unreachable!(),
    }
}

/// Plays a match of at most 10^12 turns between the players that take two sure sheets: each is given
/// its sheet, and then they play every turn from their starts. All other players stay as they are, so
/// the bench goes on fitting with the same plugs, and each side makes exactly `turns` advances. Takes
/// no memory.
pub fn play_sheets(bench: &mut Bench, left: &Sheet, right: &Sheet, turns: u64) -> Tally
    requires fits { Fits (⟦<Bench as Seen>⟧.view bench.old) }
    requires left_known { IsKnownOn (⟦<Bench as Seen>⟧.view bench.old) left.now }
    requires right_known { IsKnownOn (⟦<Bench as Seen>⟧.view bench.old) right.now }
    requires sure_left { IsSure (entry_on (⟦<Bench as Seen>⟧.view bench.old) left.now) }
    requires sure_right { IsSure (entry_on (⟦<Bench as Seen>⟧.view bench.old) right.now) }
    requires turns { turns ≤ 10 ^ 12 }
    ensures tally { result ≡ counts (path_on (⟦<Bench as Seen>⟧.view bench.old) left.now right.now turns) }
    ensures total { total result ≡ turns }
    ensures left_valid { IsAutomaton (entry_on (⟦<Bench as Seen>⟧.view bench.old) left.now) }
    ensures right_valid { IsAutomaton (entry_on (⟦<Bench as Seen>⟧.view bench.old) right.now) }
    ensures played { HavePlayed (⟦<Bench as Seen>⟧.view bench.old) (⟦<Bench as Seen>⟧.view bench.new) left.now right.now turns }
    ensures kept { KeepsBench (⟦<Bench as Seen>⟧.view bench.old) (⟦<Bench as Seen>⟧.view bench.new) }
    ensures advanced { BothAdvanced turns (⟦<Bench as Seen>⟧.view bench.old) (⟦<Bench as Seen>⟧.view bench.new) }
{
    counts_are_paid();
    entries_play();
    keeping_lasts();
    one_change();
    counts_add_up();
    let i = place_of(bench, left);
    let j = place_of(bench, right);
    bench.load(i, left, j, right);
    play_at(bench, i, j, turns)
}
