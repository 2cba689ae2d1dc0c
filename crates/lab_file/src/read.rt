//! Reads a lab file.
ghost use Rattle.std.specs.Prelude.{◌≡◌};
ghost use Rattle.toml.specs.View.{table_view};
ghost use Rattle.refusals.specs.Refusing.{Gives};
ghost use Rattle.lab_file.specs.LabOf.{version_at, lab_in, lab_of};

use crate::Lab;
use crate::entries::{entries_at, names_of};
use crate::places::top;
use game_file::read_game;
use job_tables::jobs_of;
use lab_keys::value_at;
use player_core::PlugNote;
use refusals::{FileError, FileRole, KeyName, Refusal};
use std::alloc::Global;
use toml::Table;

// The longest lab file, in bytes: 1 MiB.
const LONGEST_LAB: usize = 1_048_576;

// The version of a document.
#[tactic(auto, unfolding(crate::specs::LabOf::version_at))]
fn version_at(tree: &Table) -> Result<u32, Refusal>
    ensures { result ≡ version_at (table_view tree.now) }
{
    let value = value_at(tree, top(KeyName::Version))?;
    match value.as_integer() {
        Some(1) => Ok(1),
        Some(2) => Ok(2),
        Some(_) => Err(Refusal::Version),
        None => Err(Refusal::WrongType(top(KeyName::Version))),
    }
}

#[tactic(auto, unfolding(crate::specs::LabOf::lab_in))]
fn lab_in(alloc: Global, tree: &Table, notes: &Vec<PlugNote>) -> Result<Lab, FileError>
    ensures { Gives (λ lab. lab) result (lab_in notes.now.items (table_view tree.now)) }
{
    let version = version_at(tree)?;
    let (game, offset, noise) = read_game(tree, version)?;
    let entries = entries_at(alloc, tree, notes, version, noise)?;
    let names = names_of(alloc, &entries)?;
    let jobs = jobs_of(alloc, names.as_slice(), tree)?;
    Ok(Lab {
        version,
        offset,
        game,
        noise,
        entries,
        jobs,
    })
}

/// Reads a lab file, over a bench whose plugs have these notes. Machines whose rows stand in a file
/// of their own wait for `Lab::attach`.
///
/// # Errors
///
/// The first refusal, in this order: `TooLong(Lab)` over 1 MiB (1,048,576 bytes); `Syntax` where the
/// bytes are no TOML document; the version, the game and the noise; the entries one after the other;
/// the jobs. And `NoMemory`, which may come whatever the bytes are.
#[tactic(auto, using(crate::proofs::Readings::too_long))]
pub fn read_lab(alloc: Global, bytes: &[u8], notes: &Vec<PlugNote>) -> Result<Lab, FileError>
    ensures { Gives (λ lab. lab) result (lab_of notes.now.items bytes.now) }
{
    if bytes.len() > LONGEST_LAB {
        return Err(FileError::Refused(Refusal::TooLong(FileRole::Lab)));
    }
    match toml::table_from_slice(alloc, bytes) {
        Ok(tree) => lab_in(alloc, &tree, notes),
        Err(error) => {
            if error.is_memory() {
                Err(FileError::NoMemory)
            } else {
                Err(FileError::Refused(Refusal::Syntax))
            }
        }
    }
}
