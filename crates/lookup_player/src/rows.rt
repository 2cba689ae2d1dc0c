//! The rows of a lookup table's automaton, in order of the turns that they stand for. `fewer` is how
//! many rows stand for fewer turns, and so the first row of the turns.
ghost use Rattle.std.specs.Prelude.{◌≡◌, ◌<◌, ◌≤◌, ◌+◌, ◌^◌, length, map, min, slice_index, take};
ghost use Rattle.history_model.specs.Automaton.{IsAutomaton, plain_row};
ghost use Rattle.player_core.specs.Sheet.{depth};
ghost use Rattle.lookup_player.specs.Lookup.{IsSeen, as_seen};
ghost use Rattle.player_core.specs.Table.{base, row_of_seen, seen_after, table_automaton, table_row, table_rows, table_weight, width};

use crate::known::{Known, depth, firsts, known_after, known_at, others, owns, row_of_known};
use history_model::{GridRow, Move};
use player_core::laws::rows_are_held;
use player_core::{Kind, ROOM, Sheet};

// How many rows stand for up to so many turns.
fn rows_up_to(sheet: &Sheet, turns: u32, fewer: u32) -> u32
    requires table { sheet.now.kind ≡ Kind.Lookup }
    requires shallow { turns ≤ depth sheet.now }
    requires fewer { fewer ≡ base sheet.now turns }
    ensures value { result ≡ base sheet.now (turns + 1) }
    ensures within { result ≤ 457 }
{
    sheet.shape();
    fewer + owns(sheet, turns) * others(sheet, turns) * firsts(sheet, turns)
}

// The first row of the turns after one more play: at the depth the turns stay the same.
fn fewer_next(sheet: &Sheet, turns: u32, fewer: u32, rows: u32) -> u32
    requires table { sheet.now.kind ≡ Kind.Lookup }
    requires shallow { turns ≤ depth sheet.now }
    requires fewer { fewer ≡ base sheet.now turns }
    requires rows { rows ≡ base sheet.now (turns + 1) }
    ensures { result ≡ base sheet.now (min (turns + 1) (depth sheet.now)) }
{
    if turns < depth(sheet) { rows } else { fewer }
}

// The opening of a turn.
fn opening(sheet: &Sheet, turns: u32) -> u32
    requires inside { turns < length sheet.now.opening }
    ensures { result ≡ slice_index sheet.now.opening turns }
{
    sheet.opening[turns as usize]
}

// The entry of a place.
fn entry(sheet: &Sheet, place: u32) -> u32
    requires inside { place < length sheet.now.table }
    ensures { result ≡ slice_index sheet.now.table place }
{
    sheet.table[place as usize]
}

// The weight at a place among the rows of so many turns.
fn weight_at(sheet: &Sheet, turns: u32, place: u32) -> u32
    requires table { sheet.now.kind ≡ Kind.Lookup }
    requires shallow { turns ≤ depth sheet.now }
    requires inside { place < 2 ^ width sheet.now turns }
    ensures { result ≡ table_weight sheet.now (base sheet.now turns + place) }
{
    if turns < depth(sheet) {
        opening(sheet, turns)
    } else {
        entry(sheet, place)
    }
}

// The row after a play, from the first row of the turns after it.
fn next_row(sheet: &Sheet, known: Known, mine: Move, theirs: Move, fewer: u32) -> u32
    requires table { sheet.now.kind ≡ Kind.Lookup }
    requires seen { IsSeen sheet.now (as_seen known) }
    requires fewer { fewer ≡ base sheet.now (min (known.turns + 1) (depth sheet.now)) }
    ensures { result ≡ row_of_seen sheet.now (seen_after sheet.now (as_seen known) mine theirs) }
{
    row_of_known(sheet, known_after(sheet, known, mine, theirs), fewer)
}

// The row at a place among the rows of so many turns, from the first row of the turns after them.
fn row_of(sheet: &Sheet, turns: u32, place: u32, fewer_next: u32) -> GridRow
    requires table { sheet.now.kind ≡ Kind.Lookup }
    requires shallow { turns ≤ depth sheet.now }
    requires inside { place < 2 ^ width sheet.now turns }
    requires fewer_next { fewer_next ≡ base sheet.now (min (turns + 1) (depth sheet.now)) }
    ensures { plain_row result ≡ table_row sheet.now (base sheet.now turns + place) }
{
    let known = known_at(sheet, turns, place);
    GridRow {
        weight: weight_at(sheet, turns, place),
        next: [
            next_row(sheet, known, Move::C, Move::C, fewer_next),
            next_row(sheet, known, Move::C, Move::D, fewer_next),
            next_row(sheet, known, Move::D, Move::C, fewer_next),
            next_row(sheet, known, Move::D, Move::D, fewer_next),
        ],
    }
}

// Writes the rows of so many turns behind those of fewer turns, and tells how many there are then.
fn write_turns(table: &mut Vec<GridRow>, sheet: &Sheet, turns: u32, fewer: u32) -> u32
    requires table { sheet.now.kind ≡ Kind.Lookup }
    requires room { length table.old.items ≡ ROOM }
    requires shallow { turns ≤ depth sheet.now }
    requires fewer { fewer ≡ base sheet.now turns }
    requires rows { map plain_row (take fewer table.old.items) ≡ take fewer (table_automaton sheet.now).rows }
    ensures value { result ≡ base sheet.now (turns + 1) }
    ensures room { length table.new.items ≡ ROOM }
    ensures rows { map plain_row (take result table.new.items) ≡ take result (table_automaton sheet.now).rows }
{
    rows_are_held();
    let rows = rows_up_to(sheet, turns, fewer);
    let fewer_next = fewer_next(sheet, turns, fewer, rows);
    for place in 0..rows - fewer {
        table[(fewer + place) as usize] = row_of(sheet, turns, place, fewer_next);
    }
    rows
}

/// Writes the rows of a table's automaton over the first of the table of rows, and tells how many.
pub fn write_rows(table: &mut Vec<GridRow>, sheet: &Sheet) -> u32
    requires table { sheet.now.kind ≡ Kind.Lookup }
    requires room { length table.old.items ≡ ROOM }
    ensures value { result ≡ table_rows sheet.now }
    ensures within { result ≤ 457 }
    ensures room { length table.new.items ≡ ROOM }
    ensures rows { map plain_row (take result table.new.items) ≡ (table_automaton sheet.now).rows }
    ensures valid { IsAutomaton (table_automaton sheet.now) }
{
    rows_are_held();
    let mut rows = 0;
    for turns in 0..depth(sheet) + 1 {
        rows = write_turns(table, sheet, turns, rows);
    }
    rows
}
