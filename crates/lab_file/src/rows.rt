//! How many rows the automaton of an entry has.
ghost use Rattle.std.specs.Prelude.{◌≡◌, ◌^◌, ◌≤◌, ◌*◌, length};
ghost use Rattle.player_core.specs.Sheet.{IsTable, depth, states};
ghost use Rattle.player_core.specs.Table.{table_rows, width};
ghost use Rattle.lab_file.specs.Rows.{plug_rows, sheet_rows, entry_rows};

use crate::Entry;
use history_model::Name;
use player_core::{Kind, PlugNote, Sheet};
use strategy_file::Draft;

// The rows of a vector: its start, and one for each last play.
const VECTOR_ROWS: u32 = 5;

// How far a table looks back.
fn depth(sheet: &Sheet) -> u32
    requires { sheet.now.kind ≡ Kind.Lookup }
    ensures value { result ≡ depth sheet.now }
    ensures valid { IsTable sheet.now }
{
    sheet.shape();
    sheet.own.max(sheet.other).max(sheet.first)
}

// The rows of a table that stand for so many turns.
fn rows_after(sheet: &Sheet, turns: u32) -> u32
    requires { sheet.now.kind ≡ Kind.Lookup }
    ensures value { result ≡ 2 ^ width sheet.now turns }
    ensures few { result ≤ 256 }
{
    sheet.shape();
    1 << (turns.min(sheet.own) + turns.min(sheet.other) + turns.min(sheet.first))
}

// The rows of a table.
#[tactic(auto, using(crate::proofs::Tabling::base_next))]
fn table_rows(sheet: &Sheet) -> u32
    requires { sheet.now.kind ≡ Kind.Lookup }
    ensures { result ≡ table_rows sheet.now }
{
    let mut rows = 0;
    for turns in 0..depth(sheet) + 1 {
        rows += rows_after(sheet, turns);
    }
    rows
}

// What the note of the plug of this name says.
fn plug_rows(notes: &Vec<PlugNote>, name: Name) -> u32
    ensures { result ≡ plug_rows notes.now.items name }
{
    for note in notes {
        if note.name.bytes() == name.bytes() {
            return note.rows;
        }
    }
    0
}

// The rows of a sheet's automaton.
#[tactic(auto, using(crate::proofs::Tabling::rows_of_machine, crate::proofs::Tabling::rows_of_table))]
fn sheet_rows(notes: &Vec<PlugNote>, sheet: &Sheet) -> u32
    ensures { result ≡ sheet_rows notes.now.items sheet.now }
{
    sheet.shape();
    match sheet.kind {
        Kind::MemoryOne => VECTOR_ROWS,
        Kind::Machine => sheet.next.len() as u32,
        Kind::Lookup => table_rows(sheet),
        Kind::Plug => plug_rows(notes, sheet.plug),
    }
}

/// The number of rows of an entry's automaton; 0 while a machine waits for its file.
pub fn entry_rows(notes: &Vec<PlugNote>, entry: &Entry) -> u32
    ensures { result ≡ entry_rows notes.now.items entry.now }
{
    match &entry.draft {
        Draft::Ready(sheet) => sheet_rows(notes, sheet),
        Draft::FromFile(_) => 0,
    }
}
