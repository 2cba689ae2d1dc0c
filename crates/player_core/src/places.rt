//! One place of a side.
ghost use Rattle.std.specs.Prelude.{◌≡◌, ◌<◌, ◌≤◌, ◌↔◌, IsTrue, length, slice_set};
ghost use Rattle.player_core.specs.State.{IsState, at_start, state_at, lasting_at, lasting_of};
ghost use Rattle.player_core.specs.Sheet.{Takes};
ghost use Rattle.player_core.specs.AutomatonOf.{loaded};
ghost use Rattle.player_core.specs.Counts.{returns_of, turns_of};
ghost use Rattle.player_core.specs.Bench.{KeepsPlugs};

use crate::laws::{load_keeps, one_change};
use crate::{Kind, Player, Seats, Sheet, Side};
use history_model::Name;

/// Resumes a player at its start.
pub fn restart(player: &mut Box<dyn Player>)
    ensures state { state player.new ≡ at_start (state player.old) }
    ensures returns { (state player.old).returns ≤ (state player.new).returns }
    ensures valid { IsState (state player.old) }
{
    let start = player.start();
    player.resume(start);
}

fn load(player: &mut Box<dyn Player>, sheet: &Sheet)
    requires { Takes (state player.old).lasting sheet.now }
    ensures { state player.new ≡ loaded (state player.old) sheet.now }
{
    player.load(sheet);
}

#[tactic(auto, using(crate::proofs::Sides::map_read, crate::proofs::Sides::map_written, crate::proofs::Sides::lasting_read))]
fn load_at(players: &mut Side, k: usize, sheet: &Sheet)
    requires inside { k < length (⟦<Side as Seats>⟧.seats players.old) }
    requires takes { Takes (lasting_at (lasting_of (⟦<Side as Seats>⟧.seats players.old)) k) sheet.now }
    ensures { ⟦<Side as Seats>⟧.seats players.new ≡ slice_set (⟦<Side as Seats>⟧.seats players.old) k (loaded (state_at (⟦<Side as Seats>⟧.seats players.old) k) sheet.now) }
{
    load(&mut players[k], sheet);
}

/// Gives a sheet to the player at a place, which takes it. All other players stay as they are, and so
/// do the counts of this one.
#[tactic(auto, using(crate::proofs::Keeping::turns_loaded, crate::proofs::Keeping::returns_loaded))]
pub fn load_place(players: &mut Side, place: usize, sheet: &Sheet)
    requires inside { place < length (⟦<Side as Seats>⟧.seats players.old) }
    requires takes { Takes (lasting_at (lasting_of (⟦<Side as Seats>⟧.seats players.old)) place) sheet.now }
    ensures states { ⟦<Side as Seats>⟧.seats players.new ≡ slice_set (⟦<Side as Seats>⟧.seats players.old) place (loaded (state_at (⟦<Side as Seats>⟧.seats players.old) place) sheet.now) }
    ensures kept { KeepsPlugs (lasting_of (⟦<Side as Seats>⟧.seats players.old)) (lasting_of (⟦<Side as Seats>⟧.seats players.new)) }
    ensures turns { turns_of (⟦<Side as Seats>⟧.seats players.new) ≡ turns_of (⟦<Side as Seats>⟧.seats players.old) }
    ensures returns { returns_of (⟦<Side as Seats>⟧.seats players.new) ≡ returns_of (⟦<Side as Seats>⟧.seats players.old) }
{
    one_change();
    load_keeps();
    load_at(players, place, sheet);
}

fn kind_of(player: &Box<dyn Player>) -> Kind
    ensures { result ≡ (state player.now).lasting.kind }
{
    player.kind()
}

fn name_of(player: &Box<dyn Player>) -> Name
    ensures { result ≡ (state player.now).lasting.name }
{
    player.name()
}

/// The kind of the player at a place.
#[tactic(auto, using(crate::proofs::Sides::map_read, crate::proofs::Sides::lasting_read))]
pub fn kind_at(players: &Side, k: usize) -> Kind
    requires { k < length (⟦<Side as Seats>⟧.seats players.now) }
    ensures { result ≡ (lasting_at (lasting_of (⟦<Side as Seats>⟧.seats players.now)) k).kind }
{
    kind_of(&players[k])
}

/// The name of the player at a place.
#[tactic(auto, using(crate::proofs::Sides::map_read, crate::proofs::Sides::lasting_read))]
pub fn name_at(players: &Side, k: usize) -> Name
    requires { k < length (⟦<Side as Seats>⟧.seats players.now) }
    ensures { result ≡ (lasting_at (lasting_of (⟦<Side as Seats>⟧.seats players.now)) k).name }
{
    name_of(&players[k])
}

fn takes(player: &Box<dyn Player>, sheet: &Sheet) -> bool
    ensures { IsTrue result ↔ Takes (state player.now).lasting sheet.now }
{
    player.takes(sheet)
}

/// Whether the player at a place takes a sheet.
#[tactic(auto, using(crate::proofs::Sides::map_read, crate::proofs::Sides::lasting_read))]
pub fn takes_at(players: &Side, k: usize, sheet: &Sheet) -> bool
    requires { k < length (⟦<Side as Seats>⟧.seats players.now) }
    ensures { IsTrue result ↔ Takes (lasting_at (lasting_of (⟦<Side as Seats>⟧.seats players.now)) k) sheet.now }
{
    takes(&players[k], sheet)
}
