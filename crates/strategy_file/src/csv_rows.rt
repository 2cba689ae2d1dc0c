//! Machine rows as they stand in a file of their own.
ghost use Rattle.std.specs.Prelude.{◌≡◌, true, nat_le, map, option_and_then, Some, None, if◌then◌else◌};
ghost use Rattle.std.specs.Char.{is_ascii_digit};
ghost use Rattle.std.specs.List.{list_all};
ghost use Rattle.std.specs.Str.Parse.{digits_value};
ghost use Rattle.csv.specs.Records.{fields_of, field_at};
ghost use Rattle.refusals.specs.Refusing.{Gives};
ghost use Rattle.machine_rows.specs.Rows.{machine_sheet};
ghost use Rattle.strategy_file.specs.CsvRead.{IsReading, records_left};
ghost use Rattle.strategy_file.specs.CsvRows.{csv_sheet, is_head, is_numeral, row_of_record, state_of, word_at};
ghost use Rattle.strategy_file.specs.TomlRows.{last_state, move_of};

use crate::MachineFile;
use crate::csv_read::{read_bytes, take_record};
use crate::toml_rows::{LAST_STATE, move_of};
use csv::{ByteRecord, Reader};
use history_model::Move;
use machine_rows::{MachineRows, Transition};
use player_core::Sheet;
use refusals::{FileError, FileRole, Refusal};
use std::alloc::Global;

// A file has at most so many bytes.
const MOST_BYTES: usize = 1_048_576;

fn all_digits(text: &[u8]) -> bool
    ensures { result ≡ list_all is_ascii_digit text.now }
{
    text.iter().all(|byte| byte.is_ascii_digit())
}

fn is_numeral(text: &[u8]) -> bool
    ensures { result ≡ is_numeral text.now }
{
    if text.is_empty() || !all_digits(text) {
        return false;
    }
    text.len() == 1 || text[0] != b'0'
}

// The number that digits write, if it is the number of a state.
fn number_within(digits: &[u8]) -> Option<u32>
    requires { list_all is_ascii_digit digits.now ≡ true }
    ensures { result ≡ (if nat_le (digits_value 10 digits.now) last_state then Some (digits_value 10 digits.now) else None) }
{
    let mut number = 0;
    for digit in digits {
        number = 10 * number + u32::from(digit - b'0');
        if number > LAST_STATE {
            return None;
        }
    }
    Some(number)
}

fn state_of(text: &[u8]) -> Option<u32>
    ensures { result ≡ state_of text.now }
{
    if is_numeral(text) {
        number_within(text)
    } else {
        None
    }
}

fn state_at(row: &ByteRecord, place: usize) -> Option<u32>
    ensures { result ≡ option_and_then state_of (field_at (fields_of row.now) place) }
{
    match row.get(place) {
        Some(text) => state_of(text),
        None => None,
    }
}

fn move_at(row: &ByteRecord, place: usize) -> Option<Move>
    ensures { result ≡ option_and_then move_of (field_at (fields_of row.now) place) }
{
    match row.get(place) {
        Some(text) => move_of(text),
        None => None,
    }
}

#[tactic(auto, using(crate::proofs::CsvRows::row_by_fields))]
fn row_of(row: &ByteRecord) -> Option<Transition>
    ensures { result ≡ row_of_record (fields_of row.now) }
{
    if row.len() != 4 {
        return None;
    }
    let state = state_at(row, 0)?;
    let heard = move_at(row, 1)?;
    let next = state_at(row, 2)?;
    let play = move_at(row, 3)?;
    Some(Transition {
        state,
        heard,
        next,
        play,
    })
}

fn is_at(row: &ByteRecord, place: usize, word: &[u8]) -> bool
    ensures { result ≡ word_at (fields_of row.now) place word.now }
{
    match row.get(place) {
        Some(text) => text == word,
        None => false,
    }
}

#[tactic(auto, using(crate::proofs::CsvRows::head_by_words))]
fn is_head(row: &ByteRecord) -> bool
    ensures { result ≡ is_head (fields_of row.now) }
{
    row.len() == 4
        && is_at(row, 0, b"state")
        && is_at(row, 1, b"heard")
        && is_at(row, 2, b"next")
        && is_at(row, 3, b"play")
}

// The sheet of the rows that a reader has yet to give. `row` is what they are read into.
fn sheet_of_rows(
    alloc: Global,
    reader: &mut Reader<&[u8]>,
    row: &mut ByteRecord,
    entry: u32,
    machine: &MachineFile,
) -> Result<Sheet, FileError>
    requires { IsReading reader.old }
    ensures { Gives (λ sheet. sheet) result (machine_sheet entry machine.now.start machine.now.opening (map row_of_record (records_left reader.old))) }
{
    let mut rows = MachineRows::new(alloc, machine.start)?;
    while take_record(reader, row)? {
        match row_of(row) {
            Some(transition) => rows = rows.with(entry, transition)?,
            None => {
                return Err(FileError::Refused(Refusal::BadRows(entry, rows.following())));
            }
        }
    }
    rows.finish(alloc, entry, machine.opening)
}

/// Reads the file of a machine. It is CSV: a head of the four fields `state`, `heard`, `next` and
/// `play`, and then a row of four such fields for each state and each heard move. States are from 0 to
/// 65535, moves are `C` and `D`. `entry` is the number of the machine's entry, counted from 1.
///
/// # Errors
///
/// `TooLong` where there are more than 1,048,576 bytes; `BadRows` at 0 for a wrong head; `BadRows` and
/// `TooManyRows` at the first wrong row, counted from 1; `BadRows` at the row behind the last where
/// some state has no row for C or for D; and `NoMemory`.
pub fn read_machine_csv(
    alloc: Global,
    bytes: &[u8],
    entry: u32,
    machine: &MachineFile,
) -> Result<Sheet, FileError>
    ensures { Gives (λ sheet. sheet) result (csv_sheet entry machine.now bytes.now) }
{
    if bytes.len() > MOST_BYTES {
        return Err(FileError::Refused(Refusal::TooLong(FileRole::Machine(entry))));
    }
    let mut reader = read_bytes(alloc, bytes);
    let mut row = ByteRecord::new(alloc);
    let found = take_record(&mut reader, &mut row)?;
    if found && is_head(&row) {
        sheet_of_rows(alloc, &mut reader, &mut row, entry, machine)
    } else {
        Err(FileError::Refused(Refusal::BadRows(entry, 0)))
    }
}
