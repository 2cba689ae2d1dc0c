//! What a lookup table knows of a history.
ghost use Rattle.std.specs.Prelude.{◌≡◌, ◌<◌, ◌≤◌, ◌+◌, ◌*◌, ◌%◌, ◌^◌, min};
ghost use Rattle.history_model.specs.declared.moves.Move.{Move};
ghost use Rattle.player_core.specs.Sheet.{IsTable, depth, digit};
ghost use Rattle.player_core.specs.Table.{base, row_of_seen, seen_after, seen_at, width};
ghost use Rattle.lookup_player.specs.Lookup.{IsSeen, as_seen};

use history_model::Move;
use player_core::{Kind, Sheet};

/// What a table knows of a history: the turns, up to its depth, and the plays that it looks at as
/// binary numbers, oldest play first, with 0 for C: own last plays, the other's last and the other's
/// first.
#[derive(Clone, Copy)]
pub struct Known {
    turns: u32,
    own: u32,
    other: u32,
    first: u32,
}

/// How far a table looks back, at most 4 plays.
pub fn depth(sheet: &Sheet) -> u32
    requires table { sheet.now.kind ≡ Kind.Lookup }
    ensures value { result ≡ depth sheet.now }
    ensures valid { IsTable sheet.now }
{
    sheet.shape();
    sheet.own.max(sheet.other).max(sheet.first)
}

// The number of choices of so many plays of those looked at.
fn choices(turns: u32, looks: u32) -> u32
    requires few { looks ≤ 4 }
    ensures value { result ≡ 2 ^ min turns looks }
    ensures within { result ≤ 16 }
{
    1 << turns.min(looks)
}

/// The number of choices of own last plays after so many turns.
pub fn owns(sheet: &Sheet, turns: u32) -> u32
    requires table { sheet.now.kind ≡ Kind.Lookup }
    ensures value { result ≡ 2 ^ min turns sheet.now.own }
    ensures within { result ≤ 16 }
{
    sheet.shape();
    choices(turns, sheet.own)
}

/// The number of choices of the other's last plays after so many turns.
pub fn others(sheet: &Sheet, turns: u32) -> u32
    requires table { sheet.now.kind ≡ Kind.Lookup }
    ensures value { result ≡ 2 ^ min turns sheet.now.other }
    ensures within { result ≤ 16 }
{
    sheet.shape();
    choices(turns, sheet.other)
}

/// The number of choices of the other's first plays after so many turns.
pub fn firsts(sheet: &Sheet, turns: u32) -> u32
    requires table { sheet.now.kind ≡ Kind.Lookup }
    ensures value { result ≡ 2 ^ min turns sheet.now.first }
    ensures within { result ≤ 16 }
{
    sheet.shape();
    choices(turns, sheet.first)
}

/// What a place among the rows of so many turns stands for.
pub fn known_at(sheet: &Sheet, turns: u32, place: u32) -> Known
    requires table { sheet.now.kind ≡ Kind.Lookup }
    requires shallow { turns ≤ depth sheet.now }
    requires inside { place < 2 ^ width sheet.now turns }
    ensures value { as_seen result ≡ seen_at sheet.now (base sheet.now turns + place) }
    ensures turns { result.turns ≡ turns }
    ensures seen { IsSeen sheet.now (as_seen result) }
{
    let others = others(sheet, turns);
    let firsts = firsts(sheet, turns);
    Known {
        turns,
        own: place / firsts / others,
        other: place / firsts % others,
        first: place % firsts,
    }
}

// C as 0 and D as 1.
fn digit(play: Move) -> u32
    ensures value { result ≡ digit play }
    ensures within { result ≤ 1 }
{
    match play {
        Move::C => 0,
        Move::D => 1,
    }
}

// Last plays with one play more, of which the oldest is dropped where there is no room.
fn last_after(plays: u32, play: Move, room: u32) -> u32
    requires few { plays < 16 }
    requires some { 0 < room }
    ensures { result ≡ (2 * plays + digit play) % room }
{
    (2 * plays + digit(play)) % room
}

// First plays with one play more, where there is room.
fn first_after(sheet: &Sheet, known: Known, theirs: Move) -> u32
    requires table { sheet.now.kind ≡ Kind.Lookup }
    requires seen { IsSeen sheet.now (as_seen known) }
    ensures { (mine : Move) → result ≡ (seen_after sheet.now (as_seen known) mine theirs).first }
{
    sheet.shape();
    if known.turns < sheet.first {
        2 * known.first + digit(theirs)
    } else {
        known.first
    }
}

/// What a table knows after one more play.
pub fn known_after(sheet: &Sheet, known: Known, mine: Move, theirs: Move) -> Known
    requires table { sheet.now.kind ≡ Kind.Lookup }
    requires seen { IsSeen sheet.now (as_seen known) }
    ensures { as_seen result ≡ seen_after sheet.now (as_seen known) mine theirs }
{
    let depth = depth(sheet);
    let turns = (known.turns + 1).min(depth);
    Known {
        turns,
        own: last_after(known.own, mine, owns(sheet, turns)),
        other: last_after(known.other, theirs, others(sheet, turns)),
        first: first_after(sheet, known, theirs),
    }
}

/// The row that stands for what a table knows, from how many rows stand for fewer turns.
pub fn row_of_known(sheet: &Sheet, known: Known, fewer: u32) -> u32
    requires table { sheet.now.kind ≡ Kind.Lookup }
    requires seen { IsSeen sheet.now (as_seen known) }
    requires fewer { fewer ≡ base sheet.now known.turns }
    ensures { result ≡ row_of_seen sheet.now (as_seen known) }
{
    sheet.shape();
    let others = others(sheet, known.turns);
    let firsts = firsts(sheet, known.turns);
    fewer + ((known.own * others + known.other) * firsts + known.first)
}
