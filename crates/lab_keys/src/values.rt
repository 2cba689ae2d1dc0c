//! Values by their types and ranges. Each call takes the place of the value, which refusals name.
ghost use Rattle.std.specs.Prelude.{◌≡◌, ℕ, ◌≤◌, ◌<◌, ◌≤ℤ◌, length, slice_index, option_map, IfOk, IfSome};
ghost use Rattle.toml.specs.View.{view, table_view, array_view};
ghost use Rattle.refusals.specs.Refusing.{Gives, seen_by};
ghost use Rattle.lab_keys.specs.Keys.{text_of, truth_of, array_of, table_of, whole_of, in_range, signed_of, signed_in_range, are_whole, number_within, numbers_within, wholes_in, wholes_of, are_texts, are_text_lists, is_pair, are_pairs, pairs_in, pair_in, pair_of};

use refusals::{FileError, Place, Refusal};
use std::alloc::{AllocError, Global};
use toml::value::Array;
use toml::{Table, Value};

/// The text that a value is.
///
/// # Errors
///
/// `WrongType` where it is none.
pub fn text_of(value: &Value, place: Place) -> Result<&str, Refusal>
    ensures { seen_by (λ text. text.now) result ≡ text_of place (view value.now) }
{
    match value.as_str() {
        Some(text) => Ok(text),
        None => Err(Refusal::WrongType(place)),
    }
}

/// The truth value that a value is.
///
/// # Errors
///
/// `WrongType` where it is none.
pub fn truth_of(value: &Value, place: Place) -> Result<bool, Refusal>
    ensures { result ≡ truth_of place (view value.now) }
{
    match value.as_bool() {
        Some(truth) => Ok(truth),
        None => Err(Refusal::WrongType(place)),
    }
}

/// The array that a value is.
///
/// # Errors
///
/// `WrongType` where it is none.
pub fn array_of(value: &Value, place: Place) -> Result<&Array, Refusal>
    ensures { seen_by (λ array. array_view array.now) result ≡ array_of place (view value.now) }
{
    match value.as_array() {
        Some(array) => Ok(array),
        None => Err(Refusal::WrongType(place)),
    }
}

/// The table that a value is.
///
/// # Errors
///
/// `WrongType` where it is none.
pub fn table_of(value: &Value, place: Place) -> Result<&Table, Refusal>
    ensures { seen_by (λ table. table_view table.now) result ≡ table_of place (view value.now) }
{
    match value.as_table() {
        Some(table) => Ok(table),
        None => Err(Refusal::WrongType(place)),
    }
}

/// The whole number from `low` to `high` that a value is.
///
/// # Errors
///
/// `WrongType` where it is no whole number, and `OutOfRange` where it is another one.
pub fn whole_of(value: &Value, place: Place, low: u64, high: u64) -> Result<u64, Refusal>
    ensures exact { result ≡ whole_of place low high (view value.now) }
    ensures within { IfOk result (λ n. (low ≤ n) × (n ≤ high)) }
{
    match value.as_integer() {
        Some(found) => match in_range(found, low, high) {
            Some(n) => Ok(n),
            None => Err(Refusal::OutOfRange(place)),
        },
        None => Err(Refusal::WrongType(place)),
    }
}

/// The whole number from 0 to `high` that a value is, if it is one.
pub fn number_within(value: &Value, high: u32) -> Option<u32>
    ensures exact { result ≡ number_within high (view value.now) }
    ensures within { IfSome result (λ n. n ≤ high) }
{
    match value.as_integer() {
        Some(found) => match in_range(found, 0, high as u64) {
            Some(n) => Some(n as u32),
            None => None,
        },
        None => None,
    }
}

fn in_range(found: i64, low: u64, high: u64) -> Option<u64>
    ensures found { result ≡ in_range low high found }
    ensures within { IfSome result (λ n. (low ≤ n) × (n ≤ high)) }
{
    if found < 0 {
        return None;
    }
    let n = found as u64;
    if low <= n && n <= high { Some(n) } else { None }
}

/// The whole number from `low` to `high` that a value is. Both ends may lie below 0.
///
/// # Errors
///
/// `WrongType` where it is no whole number, and `OutOfRange` where it is another one.
pub fn signed_of(value: &Value, place: Place, low: i64, high: i64) -> Result<i64, Refusal>
    ensures exact { result ≡ signed_of place low high (view value.now) }
    ensures within { IfOk result (λ n. (low ≤ℤ n) × (n ≤ℤ high)) }
{
    match value.as_integer() {
        Some(found) => match signed_in_range(found, low, high) {
            Some(n) => Ok(n),
            None => Err(Refusal::OutOfRange(place)),
        },
        None => Err(Refusal::WrongType(place)),
    }
}

fn signed_in_range(found: i64, low: i64, high: i64) -> Option<i64>
    ensures found { result ≡ signed_in_range low high found }
    ensures within { IfSome result (λ n. (low ≤ℤ n) × (n ≤ℤ high)) }
{
    if low <= found && found <= high {
        Some(found)
    } else {
        None
    }
}

fn are_whole(array: &Array) -> bool
    ensures { result ≡ are_whole (array_view array.now) }
{
    for value in array {
        if value.as_integer().is_none() {
            return false;
        }
    }
    true
}

// The numbers of an array, where each is a whole number from 0 to `high`.
fn numbers_within(alloc: Global, array: &Array, high: u32) -> Result<Option<Vec<u32>>, AllocError>
    ensures exact { IfOk result (λ found. option_map (λ numbers. numbers.items) found ≡ numbers_within high (array_view array.now)) }
    ensures whole { IfOk result (λ found. IfSome found (λ numbers. length numbers.items ≡ length array.now.items)) }
    ensures within { IfOk result (λ found. IfSome found (λ numbers. (k : ℕ) → k < length numbers.items → slice_index numbers.items k ≤ high)) }
{
    let mut numbers = Vec::new(alloc);
    for value in array {
        let Some(n) = number_within(value, high) else {
            return Ok(None);
        };
        numbers.push(n)?;
    }
    Ok(Some(numbers))
}

// So many whole numbers from 0 to `high`.
#[tactic(auto, using(crate::proofs::Counting::counted))]
fn wholes_in(
    alloc: Global,
    array: &Array,
    place: Place,
    count: usize,
    high: u32,
) -> Result<Vec<u32>, FileError>
    ensures exact { Gives (λ numbers. numbers.items) result (wholes_in place count high (array_view array.now)) }
    ensures whole { IfOk result (λ numbers. length numbers.items ≡ count) }
    ensures within { IfOk result (λ numbers. (k : ℕ) → k < length numbers.items → slice_index numbers.items k ≤ high) }
{
    if !are_whole(array) {
        return Err(FileError::Refused(Refusal::WrongType(place)));
    }
    if array.len() != count {
        return Err(FileError::Refused(Refusal::OutOfRange(place)));
    }
    match numbers_within(alloc, array, high)? {
        Some(numbers) => Ok(numbers),
        None => Err(FileError::Refused(Refusal::OutOfRange(place))),
    }
}

/// So many whole numbers from 0 to `high` in the array that a value is.
///
/// # Errors
///
/// `WrongType` where the value is no array or an element is no whole number; then `OutOfRange` where
/// there are not `count` or one is above `high` or below 0; and `NoMemory`.
pub fn wholes_of(
    alloc: Global,
    value: &Value,
    place: Place,
    count: usize,
    high: u32,
) -> Result<Vec<u32>, FileError>
    ensures exact { Gives (λ numbers. numbers.items) result (wholes_of place count high (view value.now)) }
    ensures whole { IfOk result (λ numbers. length numbers.items ≡ count) }
    ensures within { IfOk result (λ numbers. (k : ℕ) → k < length numbers.items → slice_index numbers.items k ≤ high) }
{
    match array_of(value, place) {
        Ok(array) => wholes_in(alloc, array, place, count, high),
        Err(refusal) => Err(FileError::Refused(refusal)),
    }
}

fn are_texts(array: &Array) -> bool
    ensures { result ≡ are_texts (array_view array.now) }
{
    for value in array {
        if value.as_str().is_none() {
            return false;
        }
    }
    true
}

fn are_text_lists(array: &Array) -> bool
    ensures { result ≡ are_text_lists (array_view array.now) }
{
    for value in array {
        match value.as_array() {
            Some(list) => {
                if !are_texts(list) {
                    return false;
                }
            }
            None => return false,
        }
    }
    true
}

// A list of two.
#[tactic(auto, using(crate::proofs::Counting::counted))]
fn is_pair(value: &Value) -> bool
    ensures { result ≡ is_pair (view value.now) }
{
    match value.as_array() {
        Some(list) => list.len() == 2,
        None => false,
    }
}

fn are_pairs(array: &Array) -> bool
    ensures { result ≡ are_pairs (array_view array.now) }
{
    for value in array {
        if !is_pair(value) {
            return false;
        }
    }
    true
}

/// The array, where each element is a list of two texts.
///
/// # Errors
///
/// `WrongType` where an element is no list of texts; then `OutOfRange` where a list has not two.
pub fn pairs_in(array: &Array, place: Place) -> Result<&Array, Refusal>
    ensures { seen_by (λ pairs. array_view pairs.now) result ≡ pairs_in place (array_view array.now) }
{
    if !are_text_lists(array) {
        return Err(Refusal::WrongType(place));
    }
    if !are_pairs(array) {
        return Err(Refusal::OutOfRange(place));
    }
    Ok(array)
}

// The two texts of a list.
#[tactic(auto, using(crate::proofs::Pairs::both, crate::proofs::Pairs::not_two))]
fn pair_in(array: &Array, place: Place) -> Result<(&str, &str), Refusal>
    ensures { seen_by (λ pair. (pair.0.now, pair.1.now)) result ≡ pair_in place (array_view array.now) }
{
    if array.len() != 2 {
        return Err(Refusal::OutOfRange(place));
    }
    let left = text_of(&array[0], place)?;
    let right = text_of(&array[1], place)?;
    Ok((left, right))
}

/// The two texts of the list that a value is.
///
/// # Errors
///
/// `WrongType` where the value is no list, `OutOfRange` where it has not two elements, and `WrongType`
/// where one of them is no text.
pub fn pair_of(value: &Value, place: Place) -> Result<(&str, &str), Refusal>
    ensures { seen_by (λ pair. (pair.0.now, pair.1.now)) result ≡ pair_of place (view value.now) }
{
    match array_of(value, place) {
        Ok(array) => pair_in(array, place),
        Err(refusal) => Err(refusal),
    }
}
