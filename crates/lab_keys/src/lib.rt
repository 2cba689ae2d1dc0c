//! What stands at the keys of a lab file: the value that a key wants, or the refusal.
//!
//! A key that must be there is tested in this order: absent (`MissingKey`), of another type
//! (`WrongType`), out of range (`OutOfRange`). A whole number is a TOML integer: a float, a date or
//! a truth value is of another type.
#![tactic(auto)]

mod keys;
mod values;

pub use keys::{
    array_at, found_at, optional_pairs_at, optional_table_at, signed_at, table_at, text_at,
    truth_at, value_at, whole_at, wholes_at,
};
pub use values::{
    array_of, number_within, pair_of, signed_of, table_of, text_of, truth_of, whole_of, wholes_of,
};
