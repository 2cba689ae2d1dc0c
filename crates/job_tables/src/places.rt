//! Places of keys, and of the entries that they name.
ghost use Rattle.std.specs.Prelude.{◌≡◌, ◌<◌, ◌≤◌, length, IfOk, IfSome};
ghost use Rattle.toml.specs.View.{table_view};
ghost use Rattle.job_tables.specs.JobsOf.{place_of, place_named, place_at};

use history_model::Name;
use lab_keys::text_at;
use refusals::{KeyName, Place, Refusal, TableName};
use toml::Table;

/// A key of a table, or of the top of the file.
pub fn key_of(table: TableName, key: KeyName) -> Place
    ensures { result ≡ record { table = table; entry = 0; key = key } }
{
    Place {
        table,
        entry: 0,
        key,
    }
}

// The place of the first entry of a name.
fn place_of(names: &[Name], name: &[u8]) -> Option<usize>
    ensures place { result ≡ place_of name.now names.now }
    ensures within { IfSome result (λ place. place < length names.now) }
{
    names.iter().position(|one| one.bytes() == name)
}

/// The place of the entry that a key of a job names.
///
/// # Errors
///
/// `MissingKey`, `WrongType`, and `UnknownEntry` where no entry has the name.
pub fn place_at(names: &[Name], place: Place, job: &Table) -> Result<u32, Refusal>
    requires { length names.now ≤ 64 }
    ensures place { result ≡ place_at names.now place (table_view job.now) }
    ensures within { IfOk result (λ k. k < length names.now) }
{
    let name = text_at(job, place)?;
    place_named(names, place, name)
}

/// The place of the entry of this name, which stands at a key of a job.
///
/// # Errors
///
/// `UnknownEntry` where no entry has it.
pub fn place_named(names: &[Name], place: Place, name: &str) -> Result<u32, Refusal>
    requires { length names.now ≤ 64 }
    ensures place { result ≡ place_named names.now place name.now }
    ensures within { IfOk result (λ k. k < length names.now) }
{
    match place_of(names, name.as_bytes()) {
        Some(k) => Ok(k as u32),
        None => Err(Refusal::UnknownEntry(place)),
    }
}
