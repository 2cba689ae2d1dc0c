//! What stands at a key of a table.
ghost use Rattle.std.specs.Prelude.{◌≡◌, ℕ, ◌≤◌, ◌<◌, ◌≤ℤ◌, length, option_map, slice_index, IfOk};
ghost use Rattle.toml.specs.Data.{get_member};
ghost use Rattle.toml.specs.View.{view, table_view, array_view};
ghost use Rattle.refusals.specs.Refusing.{Gives, seen_by};
ghost use Rattle.lab_keys.specs.Keys.{found_at, value_at, text_at, array_at, table_at, whole_at, signed_at, wholes_at, truth_at, optional_table_at, optional_pairs_at};

use crate::values::{
    array_of, pairs_in, signed_of, table_of, text_of, truth_of, whole_of, wholes_of,
};
use refusals::{FileError, Place, Refusal};
use std::alloc::Global;
use toml::value::Array;
use toml::{Table, Value};

fn member<'a>(table: &'a Table, word: &str) -> Option<&'a Value>
    ensures { option_map (λ value. view value.now) result ≡ get_member word.now (table_view table.now) }
{
    table.get(word)
}

/// What stands at a key, if anything does.
pub fn found_at(table: &Table, place: Place) -> Option<&Value>
    ensures { option_map (λ value. view value.now) result ≡ found_at place (table_view table.now) }
{
    member(table, place.key.word())
}

/// What stands at a key.
///
/// # Errors
///
/// `MissingKey` where nothing does.
pub fn value_at(table: &Table, place: Place) -> Result<&Value, Refusal>
    ensures { seen_by (λ value. view value.now) result ≡ value_at place (table_view table.now) }
{
    match found_at(table, place) {
        Some(value) => Ok(value),
        None => Err(Refusal::MissingKey(place)),
    }
}

/// The text at a key.
///
/// # Errors
///
/// `MissingKey` and `WrongType`.
pub fn text_at(table: &Table, place: Place) -> Result<&str, Refusal>
    ensures { seen_by (λ text. text.now) result ≡ text_at place (table_view table.now) }
{
    let value = value_at(table, place)?;
    text_of(value, place)
}

/// The array at a key.
///
/// # Errors
///
/// `MissingKey` and `WrongType`.
pub fn array_at(table: &Table, place: Place) -> Result<&Array, Refusal>
    ensures { seen_by (λ array. array_view array.now) result ≡ array_at place (table_view table.now) }
{
    let value = value_at(table, place)?;
    array_of(value, place)
}

/// The table at a key.
///
/// # Errors
///
/// `MissingKey` and `WrongType`.
pub fn table_at(table: &Table, place: Place) -> Result<&Table, Refusal>
    ensures { seen_by (λ inner. table_view inner.now) result ≡ table_at place (table_view table.now) }
{
    let value = value_at(table, place)?;
    table_of(value, place)
}

/// The whole number from `low` to `high` at a key.
///
/// # Errors
///
/// `MissingKey`, `WrongType` and `OutOfRange`.
pub fn whole_at(table: &Table, place: Place, low: u64, high: u64) -> Result<u64, Refusal>
    ensures exact { result ≡ whole_at place low high (table_view table.now) }
    ensures within { IfOk result (λ n. (low ≤ n) × (n ≤ high)) }
{
    let value = value_at(table, place)?;
    whole_of(value, place, low, high)
}

/// The whole number from `low` to `high` at a key. Both ends may lie below 0.
///
/// # Errors
///
/// `MissingKey`, `WrongType` and `OutOfRange`.
pub fn signed_at(table: &Table, place: Place, low: i64, high: i64) -> Result<i64, Refusal>
    ensures exact { result ≡ signed_at place low high (table_view table.now) }
    ensures within { IfOk result (λ n. (low ≤ℤ n) × (n ≤ℤ high)) }
{
    let value = value_at(table, place)?;
    signed_of(value, place, low, high)
}

/// So many whole numbers from 0 to `high` in an array at a key.
///
/// # Errors
///
/// `MissingKey` and `WrongType`, the latter also where an element is no whole number; `OutOfRange`
/// where there are not `count` or one is above `high` or below 0; and `NoMemory`.
pub fn wholes_at(
    alloc: Global,
    table: &Table,
    place: Place,
    count: usize,
    high: u32,
) -> Result<Vec<u32>, FileError>
    ensures exact { Gives (λ numbers. numbers.items) result (wholes_at place count high (table_view table.now)) }
    ensures whole { IfOk result (λ numbers. length numbers.items ≡ count) }
    ensures within { IfOk result (λ numbers. (k : ℕ) → k < length numbers.items → slice_index numbers.items k ≤ high) }
{
    match value_at(table, place) {
        Ok(value) => wholes_of(alloc, value, place, count, high),
        Err(refusal) => Err(FileError::Refused(refusal)),
    }
}

/// The truth value at a key, or the default where the key is absent.
///
/// # Errors
///
/// `WrongType`.
pub fn truth_at(table: &Table, place: Place, default: bool) -> Result<bool, Refusal>
    ensures { result ≡ truth_at place default (table_view table.now) }
{
    match found_at(table, place) {
        Some(value) => truth_of(value, place),
        None => Ok(default),
    }
}

/// The table at a key that may be absent.
///
/// # Errors
///
/// `WrongType`.
pub fn optional_table_at(table: &Table, place: Place) -> Result<Option<&Table>, Refusal>
    ensures { seen_by (λ inner. option_map (λ found. table_view found.now) inner) result ≡ optional_table_at place (table_view table.now) }
{
    match found_at(table, place) {
        Some(value) => {
            let inner = table_of(value, place)?;
            Ok(Some(inner))
        }
        None => Ok(None),
    }
}

/// The lists of two texts in an array at a key that may be absent.
///
/// # Errors
///
/// `WrongType`, also where an element is no list of texts; then `OutOfRange` where a list has not two.
pub fn optional_pairs_at(table: &Table, place: Place) -> Result<Option<&Array>, Refusal>
    ensures { seen_by (λ pairs. option_map (λ found. array_view found.now) pairs) result ≡ optional_pairs_at place (table_view table.now) }
{
    match found_at(table, place) {
        Some(value) => {
            let array = array_of(value, place)?;
            let pairs = pairs_in(array, place)?;
            Ok(Some(pairs))
        }
        None => Ok(None),
    }
}
