//! One side of a bench.
ghost use Rattle.std.specs.Prelude.{◌≡◌, ◌<◌, ◌≤◌, ◌↔◌, IsTrue, IfOk, length, map};
ghost use Rattle.player_core.specs.State.{at_start, lasting_at, lasting_of};
ghost use Rattle.player_core.specs.Sheet.{Takes};
ghost use Rattle.player_core.specs.Fits.{AreTwins, HaveKinds, IsTwin, NamesDiffer, kind_of_place};
ghost use Rattle.player_core.specs.Counts.{NoneFell, returns_of, turns_of};
ghost use Rattle.player_core.specs.Bench.{note_of, notes_of};

use crate::bench::PlugNote;
use crate::names::same_name;
use crate::places::{kind_at, name_at, restart};
use crate::reading::{is_sure, same_automata};
use crate::{Kind, Player, Seats, Sheet, Side};
use history_model::NoMemory;
use std::alloc::Global;

/// The kinds of the first places, in this order. Behind them stand plugs.
pub const FIXED_KINDS: [Kind; 3] = [Kind::MemoryOne, Kind::Machine, Kind::Lookup];

fn kind_of_place(k: usize) -> Kind
    ensures { result ≡ kind_of_place k }
{
    if k < FIXED_KINDS.len() {
        FIXED_KINDS[k]
    } else {
        Kind::Plug
    }
}

/// Resumes every player of a side at its start.
pub fn restart_all(players: &mut Side)
    ensures states { ⟦<Side as Seats>⟧.seats players.new ≡ map at_start (⟦<Side as Seats>⟧.seats players.old) }
    ensures returns { NoneFell (returns_of (⟦<Side as Seats>⟧.seats players.old)) (returns_of (⟦<Side as Seats>⟧.seats players.new)) }
{
    for k in 0..players.len() {
        restart(&mut players[k]);
    }
}

/// Whether each place has its kind.
pub fn have_kinds(players: &Side) -> bool
    ensures { IsTrue result ↔ HaveKinds (lasting_of (⟦<Side as Seats>⟧.seats players.now)) }
{
    for k in 0..players.len() {
        if kind_at(players, k) != kind_of_place(k) {
            return false;
        }
    }
    true
}

/// Whether no two plugs have one name.
pub fn names_differ(players: &Side) -> bool
    ensures { IsTrue result ↔ NamesDiffer (lasting_of (⟦<Side as Seats>⟧.seats players.now)) }
{
    for k in FIXED_KINDS.len()..players.len() {
        for j in FIXED_KINDS.len()..k {
            if same_name(name_at(players, j), name_at(players, k)) {
                return false;
            }
        }
    }
    true
}

fn are_twins(left: &mut Box<dyn Player>, right: &mut Box<dyn Player>) -> bool
    ensures value { IsTrue result ↔ IsTwin (state left.old).lasting (state right.old).lasting }
    ensures left { (state left.new).lasting ≡ (state left.old).lasting }
    ensures right { (state right.new).lasting ≡ (state right.old).lasting }
    ensures left_returns { (state left.old).returns ≤ (state left.new).returns }
    ensures right_returns { (state right.old).returns ≤ (state right.new).returns }
{
    same_name(left.name(), right.name()) && same_automata(left, right)
}

#[tactic(auto, using(crate::proofs::Sides::map_read, crate::proofs::Sides::lasting_read, crate::proofs::Sides::lasting_kept, crate::proofs::Growing::returns_grown))]
fn are_twins_at(left: &mut Side, right: &mut Side, k: usize) -> bool
    requires left { k < length (⟦<Side as Seats>⟧.seats left.old) }
    requires right { k < length (⟦<Side as Seats>⟧.seats right.old) }
    ensures value { IsTrue result ↔ IsTwin (lasting_at (lasting_of (⟦<Side as Seats>⟧.seats left.old)) k) (lasting_at (lasting_of (⟦<Side as Seats>⟧.seats right.old)) k) }
    ensures left { lasting_of (⟦<Side as Seats>⟧.seats left.new) ≡ lasting_of (⟦<Side as Seats>⟧.seats left.old) }
    ensures right { lasting_of (⟦<Side as Seats>⟧.seats right.new) ≡ lasting_of (⟦<Side as Seats>⟧.seats right.old) }
    ensures left_returns { NoneFell (returns_of (⟦<Side as Seats>⟧.seats left.old)) (returns_of (⟦<Side as Seats>⟧.seats left.new)) }
    ensures right_returns { NoneFell (returns_of (⟦<Side as Seats>⟧.seats right.old)) (returns_of (⟦<Side as Seats>⟧.seats right.new)) }
{
    are_twins(&mut left[k], &mut right[k])
}

/// Whether the plugs of the two sides have equal names and equal automata, place by place.
#[tactic(auto, using(crate::proofs::Growing::none_fell_both, crate::proofs::Growing::none_fell_same))]
pub fn all_twins(left: &mut Side, right: &mut Side) -> bool
    requires { length (⟦<Side as Seats>⟧.seats left.old) ≡ length (⟦<Side as Seats>⟧.seats right.old) }
    ensures value { IsTrue result ↔ AreTwins (lasting_of (⟦<Side as Seats>⟧.seats left.old)) (lasting_of (⟦<Side as Seats>⟧.seats right.old)) }
    ensures left { lasting_of (⟦<Side as Seats>⟧.seats left.new) ≡ lasting_of (⟦<Side as Seats>⟧.seats left.old) }
    ensures right { lasting_of (⟦<Side as Seats>⟧.seats right.new) ≡ lasting_of (⟦<Side as Seats>⟧.seats right.old) }
    ensures left_returns { NoneFell (returns_of (⟦<Side as Seats>⟧.seats left.old)) (returns_of (⟦<Side as Seats>⟧.seats left.new)) }
    ensures right_returns { NoneFell (returns_of (⟦<Side as Seats>⟧.seats right.old)) (returns_of (⟦<Side as Seats>⟧.seats right.new)) }
{
    for k in FIXED_KINDS.len()..left.len() {
        if !are_twins_at(left, right, k) {
            return false;
        }
    }
    true
}

fn note_of(player: &mut Box<dyn Player>) -> PlugNote
    ensures note { result ≡ note_of (state player.old).lasting }
    ensures lasting { (state player.new).lasting ≡ (state player.old).lasting }
    ensures turns { (state player.new).turns ≡ (state player.old).turns }
    ensures returns { (state player.old).returns ≤ (state player.new).returns }
{
    let name = player.name();
    let rows = player.rows();
    let den = player.den();
    let sure = is_sure(player);
    PlugNote {
        name,
        rows,
        den,
        sure,
    }
}

#[tactic(auto, using(crate::proofs::Sides::map_read, crate::proofs::Sides::lasting_read, crate::proofs::Sides::lasting_kept, crate::proofs::Sides::turns_kept, crate::proofs::Growing::returns_grown))]
fn note_at(players: &mut Side, k: usize) -> PlugNote
    requires { k < length (⟦<Side as Seats>⟧.seats players.old) }
    ensures note { result ≡ note_of (lasting_at (lasting_of (⟦<Side as Seats>⟧.seats players.old)) k) }
    ensures lasting { lasting_of (⟦<Side as Seats>⟧.seats players.new) ≡ lasting_of (⟦<Side as Seats>⟧.seats players.old) }
    ensures turns { turns_of (⟦<Side as Seats>⟧.seats players.new) ≡ turns_of (⟦<Side as Seats>⟧.seats players.old) }
    ensures returns { NoneFell (returns_of (⟦<Side as Seats>⟧.seats players.old)) (returns_of (⟦<Side as Seats>⟧.seats players.new)) }
{
    note_of(&mut players[k])
}

/// A note of each plug, in order of place. No advance is made.
#[tactic(auto, using(crate::proofs::Growing::none_fell_both, crate::proofs::Growing::none_fell_same))]
pub fn read_notes(alloc: Global, players: &mut Side) -> Result<Vec<PlugNote>, NoMemory>
    ensures notes { IfOk result (λ v. v.items ≡ notes_of (lasting_of (⟦<Side as Seats>⟧.seats players.old))) }
    ensures lasting { lasting_of (⟦<Side as Seats>⟧.seats players.new) ≡ lasting_of (⟦<Side as Seats>⟧.seats players.old) }
    ensures turns { turns_of (⟦<Side as Seats>⟧.seats players.new) ≡ turns_of (⟦<Side as Seats>⟧.seats players.old) }
    ensures returns { NoneFell (returns_of (⟦<Side as Seats>⟧.seats players.old)) (returns_of (⟦<Side as Seats>⟧.seats players.new)) }
{
    let mut notes = Vec::new(alloc);
    for k in FIXED_KINDS.len()..players.len() {
        let note = note_at(players, k);
        if notes.push(note).is_err() {
            return Err(NoMemory);
        }
    }
    Ok(notes)
}
