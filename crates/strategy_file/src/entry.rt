//! Reads one entry of a lab file, by the keys after its name.
ghost use Rattle.std.specs.Prelude.{◌≡◌, ◌+◌, ◌≤◌, IfOk, IfSome};
ghost use Rattle.toml.specs.View.{view, table_view};
ghost use Rattle.history_model.specs.Name.{IsName};
ghost use Rattle.refusals.specs.Refusing.{Gives};
ghost use Rattle.refusals.specs.declared.place.KeyName.TheVariants.{Rows, File};
ghost use Rattle.lab_keys.specs.Keys.{found_at, text_at, whole_at};
ghost use Rattle.strategy_file.specs.SheetOf.{at, vector_of, machine_in_lab, machine_in_file, machine_from, machine_of, table_weights, table_of, plug_named, plug_of, draft_of_kind, draft_of};

use crate::sheets::{Reach, plug_with, table_with, vector_with};
use crate::toml_rows::{LAST_STATE, machine_sheet, move_of};
use crate::{Draft, FileName, MachineFile};
use history_model::{Move, Name};
use lab_keys::{array_of, found_at, text_at, text_of, whole_at, wholes_at};
use player_core::{PlugNote, Sheet};
use refusals::{FileError, KeyName, Place, Refusal, TableName};
use std::alloc::Global;
use toml::{Table, Value};

// The greatest denominator of weights.
const LAST_DEN: u32 = 1000;

// How many plays a lookup table looks at: of own last plays, the other's last and the other's first.
const LAST_REACH: u32 = 4;

// How many plays it looks at in all.
const WHOLE_REACH: u32 = 8;

// A key of the entry of this number.
fn at(entry: u32, key: KeyName) -> Place
    ensures { result ≡ at entry key }
{
    Place {
        table: TableName::Entry,
        entry,
        key,
    }
}

fn whole(table: &Table, place: Place, low: u32, high: u32) -> Result<u32, FileError>
    ensures exact { Gives (λ n. n) result (whole_at place low high (table_view table.now)) }
    ensures within { IfOk result (λ n. (low ≤ n) × (n ≤ high)) }
{
    match whole_at(table, place, low as u64, high as u64) {
        Ok(n) => Ok(n as u32),
        Err(refusal) => Err(FileError::Refused(refusal)),
    }
}

fn text(table: &Table, place: Place) -> Result<&str, FileError>
    ensures { Gives (λ text. text.now) result (text_at place (table_view table.now)) }
{
    match text_at(table, place) {
        Ok(text) => Ok(text),
        Err(refusal) => Err(FileError::Refused(refusal)),
    }
}

#[tactic(auto, unfolding(crate::specs::SheetOf::vector_of))]
fn vector_of(alloc: Global, table: &Table, entry: u32) -> Result<Sheet, FileError>
    ensures { Gives (λ sheet. sheet) result (vector_of entry (table_view table.now)) }
{
    let den = whole(table, at(entry, KeyName::Den), 1, LAST_DEN)?;
    let opening = whole(table, at(entry, KeyName::Opening), 0, den)?;
    let weights = wholes_at(alloc, table, at(entry, KeyName::Weights), 4, den)?;
    let sheet = vector_with(alloc, den, opening, weights)?;
    Ok(sheet)
}

#[tactic(auto, unfolding(crate::specs::SheetOf::machine_in_lab))]
fn machine_in_lab(
    alloc: Global,
    value: &Value,
    entry: u32,
    start: u32,
    opening: Move,
) -> Result<Draft, FileError>
    ensures { Gives (λ draft. draft) result (machine_in_lab entry start opening (view value.now)) }
{
    match array_of(value, at(entry, KeyName::Rows)) {
        Ok(array) => {
            let sheet = machine_sheet(alloc, array, entry, start, opening)?;
            Ok(Draft::Ready(sheet))
        }
        Err(refusal) => Err(FileError::Refused(refusal)),
    }
}

#[tactic(auto, unfolding(crate::specs::SheetOf::machine_in_file))]
fn machine_in_file(
    alloc: Global,
    value: &Value,
    entry: u32,
    start: u32,
    opening: Move,
) -> Result<Draft, FileError>
    ensures { Gives (λ draft. draft) result (machine_in_file entry start opening (view value.now)) }
{
    match text_of(value, at(entry, KeyName::File)) {
        Ok(text) => match FileName::read(alloc, text)? {
            Some(file) => Ok(Draft::FromFile(MachineFile {
                file,
                start,
                opening,
            })),
            None => Err(FileError::Refused(Refusal::BadName(entry))),
        },
        Err(refusal) => Err(FileError::Refused(refusal)),
    }
}

#[tactic(auto, unfolding(crate::specs::SheetOf::machine_from))]
fn machine_from(
    alloc: Global,
    table: &Table,
    entry: u32,
    start: u32,
    opening: Move,
) -> Result<Draft, FileError>
    ensures { Gives (λ draft. draft) result (machine_from entry start opening (found_at (at entry Rows) (table_view table.now)) (found_at (at entry File) (table_view table.now))) }
{
    let rows = found_at(table, at(entry, KeyName::Rows));
    let file = found_at(table, at(entry, KeyName::File));
    match rows {
        Some(rows) => match file {
            Some(_) => Err(FileError::Refused(Refusal::OutOfRange(at(entry, KeyName::File)))),
            None => machine_in_lab(alloc, rows, entry, start, opening),
        },
        None => match file {
            Some(file) => machine_in_file(alloc, file, entry, start, opening),
            None => Err(FileError::Refused(Refusal::MissingKey(at(entry, KeyName::Rows)))),
        },
    }
}

#[tactic(auto, unfolding(crate::specs::SheetOf::machine_of))]
fn machine_of(alloc: Global, table: &Table, entry: u32) -> Result<Draft, FileError>
    ensures { Gives (λ draft. draft) result (machine_of entry (table_view table.now)) }
{
    let start = whole(table, at(entry, KeyName::Start), 0, LAST_STATE)?;
    let word = text(table, at(entry, KeyName::Opening))?;
    match move_of(word.as_bytes()) {
        Some(opening) => machine_from(alloc, table, entry, start, opening),
        None => Err(FileError::Refused(Refusal::OutOfRange(at(entry, KeyName::Opening)))),
    }
}

#[tactic(auto, unfolding(crate::specs::SheetOf::table_weights))]
fn table_weights(
    alloc: Global,
    table: &Table,
    entry: u32,
    den: u32,
    reach: Reach,
) -> Result<Sheet, FileError>
    requires some { 1 ≤ den }
    requires few { den ≤ 1000 }
    requires own { reach.own ≤ 4 }
    requires other { reach.other ≤ 4 }
    requires first { reach.first ≤ 4 }
    requires all { reach.own + reach.other + reach.first ≤ 8 }
    ensures { Gives (λ sheet. sheet) result (table_weights entry den reach.own reach.other reach.first (table_view table.now)) }
{
    let depth = reach.own.max(reach.other).max(reach.first) as usize;
    let count = 2usize.pow(reach.own + reach.other + reach.first);
    let opening = wholes_at(alloc, table, at(entry, KeyName::Opening), depth, den)?;
    let weights = wholes_at(alloc, table, at(entry, KeyName::Table), count, den)?;
    Ok(table_with(alloc, den, reach, opening, weights))
}

#[tactic(auto, unfolding(crate::specs::SheetOf::table_of))]
fn table_of(alloc: Global, table: &Table, entry: u32) -> Result<Sheet, FileError>
    ensures { Gives (λ sheet. sheet) result (table_of entry (table_view table.now)) }
{
    let den = whole(table, at(entry, KeyName::Den), 1, LAST_DEN)?;
    let own = whole(table, at(entry, KeyName::Own), 0, LAST_REACH)?;
    let other = whole(table, at(entry, KeyName::Other), 0, LAST_REACH)?;
    let first = whole(table, at(entry, KeyName::First), 0, LAST_REACH)?;
    if own + other + first > WHOLE_REACH {
        return Err(FileError::Refused(Refusal::OutOfRange(at(entry, KeyName::First))));
    }
    table_weights(alloc, table, entry, den, Reach { own, other, first })
}

// The plug of a name.
fn plug_named(notes: &Vec<PlugNote>, name: &str) -> Option<Name>
    ensures value { result ≡ plug_named notes.now.items name.now }
    ensures named { IfSome result IsName }
{
    for note in notes {
        if name.as_bytes() == note.name.bytes() {
            let _length = note.name.len();
            return Some(note.name);
        }
    }
    None
}

#[tactic(auto, unfolding(crate::specs::SheetOf::plug_of))]
fn plug_of(
    alloc: Global,
    table: &Table,
    entry: u32,
    notes: &Vec<PlugNote>,
) -> Result<Sheet, FileError>
    ensures { Gives (λ sheet. sheet) result (plug_of notes.now.items entry (table_view table.now)) }
{
    let word = text(table, at(entry, KeyName::Plug))?;
    match plug_named(notes, word) {
        Some(name) => Ok(plug_with(alloc, name)),
        None => Err(FileError::Refused(Refusal::UnknownPlug(entry))),
    }
}

#[tactic(auto, unfolding(crate::specs::SheetOf::draft_of_kind))]
fn draft_of_kind(
    alloc: Global,
    kind: &str,
    table: &Table,
    entry: u32,
    notes: &Vec<PlugNote>,
) -> Result<Draft, FileError>
    ensures { Gives (λ draft. draft) result (draft_of_kind kind.now notes.now.items entry (table_view table.now)) }
{
    if kind == "memory-one" {
        let sheet = vector_of(alloc, table, entry)?;
        Ok(Draft::Ready(sheet))
    } else if kind == "machine" {
        machine_of(alloc, table, entry)
    } else if kind == "lookup" {
        let sheet = table_of(alloc, table, entry)?;
        Ok(Draft::Ready(sheet))
    } else if kind == "plug" {
        let sheet = plug_of(alloc, table, entry, notes)?;
        Ok(Draft::Ready(sheet))
    } else {
        Err(FileError::Refused(Refusal::UnknownKind(entry)))
    }
}

/// Reads the keys of one entry after its name. `entry` is the entry's number, counted from 1; `notes`
/// are of the plugs that the bench has.
///
/// # Errors
///
/// `MissingKey`, `WrongType` and `OutOfRange` at the first wrong key in the order of the kind's keys,
/// `UnknownKind`, `BadName` where `file` names no file, `BadRows`, `TooManyRows`, `UnknownPlug`, and
/// `NoMemory`.
#[tactic(auto, unfolding(crate::specs::SheetOf::draft_of))]
pub fn read_sheet(
    alloc: Global,
    table: &Table,
    entry: u32,
    notes: &Vec<PlugNote>,
) -> Result<Draft, FileError>
    ensures { Gives (λ draft. draft) result (draft_of notes.now.items entry (table_view table.now)) }
{
    let kind = text(table, at(entry, KeyName::Kind))?;
    draft_of_kind(alloc, kind, table, entry, notes)
}
