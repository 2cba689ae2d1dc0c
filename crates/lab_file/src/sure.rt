//! Whether an entry leaves nothing to chance.
ghost use Rattle.std.specs.Prelude.{◌≡◌};
ghost use Rattle.std.specs.List.{list_all};
ghost use Rattle.player_core.specs.AutomatonOf.{vector_automaton};
ghost use Rattle.player_core.specs.Table.{table_automaton};
ghost use Rattle.player_core.specs.Bench.{is_sure};
ghost use Rattle.lab_file.specs.Sure.{is_sure_weight, plug_is_sure, sheet_is_sure, entry_is_sure};

use crate::Entry;
use history_model::Name;
use player_core::{Kind, PlugNote, Sheet};
use strategy_file::Draft;

/// Whether every weight of the sheet's automaton is 0 or the denominator.
#[tactic(auto, using(crate::proofs::Sureness::machines_are_sure))]
fn sheet_is_sure(notes: &Vec<PlugNote>, sheet: &Sheet) -> bool
    ensures { result ≡ sheet_is_sure notes.now.items sheet.now }
{
    match sheet.kind {
        Kind::MemoryOne => vector_is_sure(sheet),
        Kind::Machine => true,
        Kind::Lookup => table_is_sure(sheet),
        Kind::Plug => plug_is_sure(notes, sheet.plug),
    }
}

#[tactic(auto, using(crate::proofs::Sureness::vector_sureness))]
fn vector_is_sure(sheet: &Sheet) -> bool
    requires { sheet.now.kind ≡ Kind.MemoryOne }
    ensures { result ≡ is_sure (vector_automaton sheet.now) }
{
    is_sure_weight(sheet.opening[0], sheet.den) && are_sure_weights(&sheet.table, sheet.den)
}

#[tactic(auto, using(crate::proofs::TableSure::table_sureness))]
fn table_is_sure(sheet: &Sheet) -> bool
    requires { sheet.now.kind ≡ Kind.Lookup }
    ensures { result ≡ is_sure (table_automaton sheet.now) }
{
    sheet.shape();
    are_sure_weights(&sheet.opening, sheet.den) && are_sure_weights(&sheet.table, sheet.den)
}

fn is_sure_weight(weight: u32, den: u32) -> bool
    ensures { result ≡ is_sure_weight den weight }
{
    weight == 0 || weight == den
}

fn are_sure_weights(weights: &Vec<u32>, den: u32) -> bool
    ensures { result ≡ list_all (is_sure_weight den) weights.now.items }
{
    weights.iter().all(|weight| is_sure_weight(*weight, den))
}

// What the note of the plug of this name says.
fn plug_is_sure(notes: &Vec<PlugNote>, name: Name) -> bool
    ensures { result ≡ plug_is_sure notes.now.items name }
{
    for note in notes {
        if note.name.bytes() == name.bytes() {
            return note.sure;
        }
    }
    false
}

/// Whether an entry's automaton is sure, and no move of it is flipped.
pub fn entry_is_sure(notes: &Vec<PlugNote>, entry: &Entry) -> bool
    ensures { result ≡ entry_is_sure notes.now.items entry.now }
{
    if entry.noise.n != 0 {
        return false;
    }
    match &entry.draft {
        Draft::Ready(sheet) => sheet_is_sure(notes, sheet),
        Draft::FromFile(_) => true,
    }
}
