//! The second file of a command.
ghost use Rattle.std.specs.Prelude.{◌≡◌, ◌≤◌, ◌^◌, ◌++◌, Ok, Err, IfOk, IfErr};
ghost use Rattle.lab_ports.specs.Causes.{Rose};
ghost use Rattle.axlab_core.specs.Files.{second_file};
ghost use Rattle.axlab_core.specs.Input.{longest, second_of, second_role};
ghost use Rattle.axlab_core.specs.Loading.{IsTold};
ghost use Rattle.axlab_core.specs.Steps.{Explains, ReadsSecond};

use crate::load::{LONGEST_FILE, LoadError, read_file};
use lab_file::Command;
use lab_ports::{FileRole, Library, Refusal};
use std::alloc::Global;
use std::marker::Model;

// The longest certificate, in bytes: 16 MiB.
const LONGEST_CERT: usize = 16_777_216;

/// The bytes of a file. Contracts see them as their list.
#[derive(Drop)]
pub(crate) struct FileBytes {
    held: Vec<u8>,
}

impl Model for FileBytes {
    ghost use Rattle.std.specs.Prelude.{ℕ, List};

    ghost Value = { List ℕ };

    ghost view = { λ bytes. bytes.held.items };
}

impl FileBytes {
    fn from_vec(held: Vec<u8>) -> FileBytes
        ensures { result ≡ held.items }
    {
        FileBytes { held }
    }
}

/// What the second file of a command gives.
#[derive(Drop)]
pub(crate) enum Second {
    /// There is none.
    Alone,
    /// Its bytes.
    Bytes(FileBytes),
}

// What the second file of a command is, where its words name one.
fn second_role(command: Command) -> Option<FileRole>
    ensures { result ≡ second_role command }
{
    match command {
        Command::Resume => Some(FileRole::Rows),
        Command::Check => Some(FileRole::Cert),
        _ => None,
    }
}

// The most bytes of a file.
fn longest(role: FileRole) -> usize
    ensures is { result ≡ longest role }
    ensures small { result ≤ 2 ^ 30 }
{
    match role {
        FileRole::Cert => LONGEST_CERT,
        _ => LONGEST_FILE,
    }
}

// The bytes, where there aren't too many.
fn second_of(role: FileRole, bytes: Vec<u8>) -> Result<Second, Refusal>
    ensures { result ≡ second_of role bytes.items }
{
    if bytes.len() > longest(role) {
        return Err(Refusal::TooLong(role));
    }
    Ok(Second::Bytes(FileBytes::from_vec(bytes)))
}

/// What the second file gives, where the command has one.
#[tactic(auto, using(crate::proofs::Asking::asked_no_second, crate::proofs::Asking::asked_second))]
pub(crate) fn read_second<L: Library>(
    alloc: Global,
    command: Command,
    name: &str,
    files: &mut L,
) -> Result<Second, LoadError>
    ensures asked { L.asked files.new ≡ L.asked files.old ++ second_file command name.now }
    ensures reads { IfOk result (λ second. ReadsSecond command name.now (L.holding files.old) (Ok second)) }
    ensures stops { IfErr result (λ error. Explains error (Rose (L.faults files.old) (L.faults files.new)) (IsTold (L.holding files.old)) (λ stop. ReadsSecond command name.now (L.holding files.old) (Err stop))) }
{
    let Some(role) = second_role(command) else {
        return Ok(Second::Alone);
    };
    let bytes = read_file(alloc, name, longest(role), files)?;
    match second_of(role, bytes) {
        Ok(second) => Ok(second),
        Err(refusal) => Err(LoadError::Refused(refusal)),
    }
}
