//! Machine rows as they stand in a lab file.
ghost use Rattle.std.specs.Prelude.{◌≡◌};
ghost use Rattle.toml.specs.View.{view, array_view};
ghost use Rattle.refusals.specs.Refusing.{Gives};
ghost use Rattle.machine_rows.specs.Rows.{machine_sheet};
ghost use Rattle.strategy_file.specs.TomlRows.{move_of, move_in, row_of, row_in, rows_in};

use history_model::Move;
use lab_keys::number_within;
use machine_rows::{MachineRows, Transition};
use player_core::Sheet;
use refusals::{FileError, Refusal};
use std::alloc::Global;
use toml::Value;
use toml::value::Array;

// The greatest number of a state in a file.
pub const LAST_STATE: u32 = 65_535;

/// The move that a text names: `C` or `D`.
pub fn move_of(text: &[u8]) -> Option<Move>
    ensures { result ≡ move_of text.now }
{
    if text == b"C".as_slice() {
        Some(Move::C)
    } else if text == b"D".as_slice() {
        Some(Move::D)
    } else {
        None
    }
}

fn move_in(value: &Value) -> Option<Move>
    ensures { result ≡ move_in (view value.now) }
{
    match value.as_str() {
        Some(text) => move_of(text.as_bytes()),
        None => None,
    }
}

fn row_of(array: &Array) -> Option<Transition>
    ensures { result ≡ row_of (array_view array.now) }
{
    match array.as_slice() {
        [state, heard, next, play] => {
            let state = number_within(state, LAST_STATE)?;
            let heard = move_in(heard)?;
            let next = number_within(next, LAST_STATE)?;
            let play = move_in(play)?;
            Some(Transition {
                state,
                heard,
                next,
                play,
            })
        }
        _ => None,
    }
}

fn row_in(value: &Value) -> Option<Transition>
    ensures { result ≡ row_in (view value.now) }
{
    match value.as_array() {
        Some(array) => row_of(array),
        None => None,
    }
}

/// The sheet of the machine whose rows are the elements of an array, each a list of four: state,
/// heard, next, play.
///
/// # Errors
///
/// `BadRows` and `TooManyRows` at the first wrong row, counted from 1; `BadRows` at the row behind the
/// last where some state has no row for C or for D; and `NoMemory`.
pub fn machine_sheet(
    alloc: Global,
    array: &Array,
    entry: u32,
    start: u32,
    opening: Move,
) -> Result<Sheet, FileError>
    ensures { Gives (λ sheet. sheet) result (machine_sheet entry start opening (rows_in (array_view array.now))) }
{
    let mut rows = MachineRows::new(alloc, start)?;
    for value in array {
        match row_in(value) {
            Some(row) => rows = rows.with(entry, row)?,
            None => {
                return Err(FileError::Refused(Refusal::BadRows(entry, rows.following())));
            }
        }
    }
    rows.finish(alloc, entry, opening)
}
