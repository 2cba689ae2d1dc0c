//! Loads the lab of a command: the lab file, then the files of its machines.
ghost use Rattle.std.specs.Prelude.{◌≡◌, ◌<◌, ◌≤◌, ◌^◌, [], ◌∷◌, ◌++◌, All, length, Ok, Err, IfOk, IfErr, OnOk};
ghost use Rattle.lab_ports.specs.Causes.{Rose};
ghost use Rattle.lab_ports.specs.Holding.{IsFront, IsMissing};
ghost use Rattle.lab_file.specs.Lab.{entry_at};
ghost use Rattle.lab_file.specs.Notes.{AreNoted};
ghost use Rattle.axlab_core.specs.Loading.{Loads, IsTold};
ghost use Rattle.play_commands.specs.Ready.{IsReadyEntry};
ghost use Rattle.axlab_core.specs.Steps.{Attaches, AttachesAll, AttachStops, AttachAllStops, Explains, ReadFails, ReadsLab};
ghost use Rattle.axlab_core.specs.Files.{AskedFront, AskedLab, AskedWholeLab, machine_file, machine_files};

use crate::Status;
use lab_file::laws::labs_are_noted;
use lab_file::{Lab, read_lab};
use lab_ports::{FileError, Library, LibraryError, Refusal};
use player_core::PlugNote;
use std::alloc::Global;
use strategy_file::Draft;

// The longest lab file and the longest machine file, in bytes: 1 MiB.
pub(crate) const LONGEST_FILE: usize = 1_048_576;

/// Why there is no lab.
#[derive(Clone, Copy, Debug)]
pub(crate) enum LoadError {
    /// A file couldn't be read.
    Unread,
    /// What was read is refused.
    Refused(Refusal),
    /// Want of memory.
    NoMemory,
}

impl From<FileError> for LoadError {
    ghost use Rattle.axlab_core.specs.Steps.{of_file};

    ghost from_gives = { λ error e. e ≡ of_file error };

    fn from(error: FileError) -> Self {
        match error {
            FileError::Refused(refusal) => LoadError::Refused(refusal),
            FileError::NoMemory => LoadError::NoMemory,
        }
    }
}

impl LoadError {
    ghost use Rattle.axlab_core.specs.Steps.{load_status};

    /// How the call ends.
    pub(crate) fn status(self) -> Status
        ensures { result ≡ load_status self }
    {
        match self {
            LoadError::Unread => Status::ReadFault,
            LoadError::Refused(refusal) => Status::Refused(refusal),
            LoadError::NoMemory => Status::NoMemory,
        }
    }
}

/// The bytes of a file, up to a limit and a byte.
pub(crate) fn read_file<L: Library>(
    alloc: Global,
    name: &str,
    limit: usize,
    files: &mut L,
) -> Result<Vec<u8>, LoadError>
    requires { limit ≤ 2 ^ 30 }
    ensures front { IfOk result (λ bytes. IsFront (L.holding files.old) name.now limit bytes.items) }
    ensures asked { L.asked files.new ≡ L.asked files.old ++ name.now ∷ [] }
    ensures fails { IfErr result (λ error. ReadFails error (Rose (L.faults files.old) (L.faults files.new)) (IsMissing (L.holding files.old) name.now)) }
    ensures held { L.holding files.new ≡ L.holding files.old }
    ensures later { L.faults files.old ≤ L.faults files.new }
{
    match files.read(alloc, name, limit) {
        Ok(bytes) => Ok(bytes),
        Err(LibraryError::Failed) => Err(LoadError::Unread),
        Err(LibraryError::Missing) => Err(LoadError::Unread),
        Err(LibraryError::NoMemory) => Err(LoadError::NoMemory),
    }
}

// The lab of a lab file, as far as no other file is needed.
fn read_first<L: Library>(
    alloc: Global,
    name: &str,
    notes: &Vec<PlugNote>,
    files: &mut L,
) -> Result<Lab, LoadError>
    ensures asked { L.asked files.new ≡ L.asked files.old ++ name.now ∷ [] }
    ensures reads { IfOk result (λ lab. ReadsLab notes.now.items name.now (L.holding files.old) (Ok lab)) }
    ensures stops { IfErr result (λ error. Explains error (Rose (L.faults files.old) (L.faults files.new)) (IsTold (L.holding files.old)) (λ stop. ReadsLab notes.now.items name.now (L.holding files.old) (Err stop))) }
    ensures held { L.holding files.new ≡ L.holding files.old }
    ensures later { L.faults files.old ≤ L.faults files.new }
{
    let bytes = read_file(alloc, name, LONGEST_FILE, files)?;
    let lab = read_lab(alloc, bytes.as_slice(), notes)?;
    Ok(lab)
}

// Gives the entry at a place its rows, where they stand in a file.
fn attach_file<L: Library>(
    alloc: Global,
    lab: &mut Lab,
    place: u32,
    files: &mut L,
) -> Result<(), LoadError>
    requires inside { place < length lab.old.entries }
    ensures asked { L.asked files.new ≡ L.asked files.old ++ machine_file (entry_at lab.old.entries place).draft }
    ensures attaches { OnOk result (Attaches (L.holding files.old) place lab.old lab.new) }
    ensures stops { IfErr result (λ error. Explains error (Rose (L.faults files.old) (L.faults files.new)) (IsTold (L.holding files.old)) (AttachStops (L.holding files.old) place lab.old)) }
    ensures held { L.holding files.new ≡ L.holding files.old }
    ensures later { L.faults files.old ≤ L.faults files.new }
{
    let Draft::FromFile(machine) = &lab.entries.at(place as usize).draft else {
        return Ok(());
    };
    let bytes = read_file(alloc, machine.file.text(), LONGEST_FILE, files)?;
    lab.attach(alloc, place, bytes.as_slice())?;
    Ok(())
}

// Gives each entry its rows that stand in a file, in file order.
fn attach_files<L: Library>(alloc: Global, lab: &mut Lab, files: &mut L) -> Result<(), LoadError>
    ensures asked { AskedFront (machine_files lab.old.entries) (L.asked files.old) (L.asked files.new) }
    ensures all_asked { OnOk result (L.asked files.new ≡ L.asked files.old ++ machine_files lab.old.entries) }
    ensures attaches { OnOk result (AttachesAll (L.holding files.old) lab.old lab.new) }
    ensures stops { IfErr result (λ error. Explains error (Rose (L.faults files.old) (L.faults files.new)) (IsTold (L.holding files.old)) (AttachAllStops (L.holding files.old) lab.old)) }
    ensures held { L.holding files.new ≡ L.holding files.old }
    ensures later { L.faults files.old ≤ L.faults files.new }
{
    for place in 0..lab.entries.len() as u32 {
        attach_file(alloc, lab, place, files)?;
    }
    Ok(())
}

/// The lab of this name with its files, over a bench whose plugs have these notes. The lab file is
/// read first, then the file of each entry that names one, in file order.
pub(crate) fn load_lab<L: Library>(
    alloc: Global,
    name: &str,
    notes: &Vec<PlugNote>,
    files: &mut L,
) -> Result<Lab, LoadError>
    ensures asked { AskedLab name.now notes.now.items (L.holding files.old) (L.asked files.old) (L.asked files.new) }
    ensures all_asked { IfOk result (λ _. AskedWholeLab name.now notes.now.items (L.holding files.old) (L.asked files.old) (L.asked files.new)) }
    ensures loads { IfOk result (λ lab. Loads notes.now.items name.now (L.holding files.old) (Ok lab)) }
    ensures ready { IfOk result (λ lab. All IsReadyEntry lab.entries) }
    ensures noted { IfOk result (λ lab. AreNoted notes.now.items lab.entries) }
    ensures stops { IfErr result (λ error. Explains error (Rose (L.faults files.old) (L.faults files.new)) (IsTold (L.holding files.old)) (λ stop. Loads notes.now.items name.now (L.holding files.old) (Err stop))) }
    ensures held { L.holding files.new ≡ L.holding files.old }
    ensures later { L.faults files.old ≤ L.faults files.new }
{
    labs_are_noted();
    let mut lab = read_first(alloc, name, notes, files)?;
    attach_files(alloc, &mut lab, files)?;
    Ok(lab)
}
