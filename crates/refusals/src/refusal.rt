//! Why the program may refuse its files.
ghost use Rattle.std.specs.Prelude.{◌≡◌};
ghost use Rattle.refusals.specs.declared.refusal.FileError.TheVariants.{NoMemory, Refused};

use crate::Place;
use std::alloc::{AllocError, AllocFailed};
use thiserror::Error;

/// What a file is read for.
#[derive(Clone, Copy, Debug, PartialEq, Eq)]
pub enum FileRole {
    /// The lab file.
    Lab,
    /// The table of a machine. It carries the number of the entry that names it, from 1.
    Machine(u32),
    /// The checkpoint of a rota.
    Rows,
    /// A certificate.
    Cert,
}

/// What is wrong with a line of a checkpoint.
#[derive(Clone, Copy, Debug, PartialEq, Eq)]
pub enum RowCause {
    /// The line isn't of the form that stands there.
    BadLine,
    /// The line names another pair than the lab has at that place.
    WrongPair,
    /// A mark of the line is no row of that entry's automaton.
    BadMark,
}

/// Why the program refuses the files or words that it is given. Each has a number from 1 to 24, in
/// the order of the variants, and its variant's name, both of which the program prints. Entries,
/// rows, edges and lines are counted from 1.
#[derive(Clone, Copy, Debug, PartialEq, Eq)]
pub enum Refusal {
    /// 1: a file is longer than its limit: 16 MiB for a certificate, 1 MiB for any other.
    TooLong(FileRole),
    /// 2: the lab file is no TOML.
    Syntax,
    /// 3: the lab file has a version that the program doesn't know.
    Version,
    /// 4: a required key is absent.
    MissingKey(Place),
    /// 5: a value has another type than its key wants.
    WrongType(Place),
    /// 6: a value, or the length of a list, is out of its key's range.
    OutOfRange(Place),
    /// 7: the name of this entry isn't of the form of a name, or that of its file not of the form
    /// of a file's name.
    BadName(u32),
    /// 8: this entry has the name of an earlier one.
    DoubledName(u32),
    /// 9: this entry is of no known kind.
    UnknownKind(u32),
    /// 10: the machine of this entry (first number) is wrong at this row (second number). The
    /// second number is 0 for the head of a machine's file, and one more than there are rows
    /// where a transition is missing.
    BadRows(u32, u32),
    /// 11: there is no built-in strategy of the name that this entry gives.
    UnknownPlug(u32),
    /// 12: the machine of this entry has more than 256 states.
    TooManyRows(u32),
    /// 13: the lab file has no job for the command.
    NoJob,
    /// 14: a job names an entry that the lab file doesn't have.
    UnknownEntry(Place),
    /// 15: a match has more turns than the program plays.
    TooManyTurns,
    /// 16: the job asks for more work than the program does.
    TooMuchWork,
    /// 17: the job can only take entries that never draw a move by chance, and this one may.
    NotSure(u32),
    /// 18: in a Moran process a fitness could be less than 1.
    NoFitness,
    /// 19: the rows of a board have a wrong shape.
    BadBoard,
    /// 20: this edge joins an entry with itself, or the two entries of an earlier edge.
    DoubledEdge(u32),
    /// 21: a checkpoint is wrong at this line.
    BadCheckpoint(u32, RowCause),
    /// 22: this line of a certificate isn't of the form that stands there.
    BadCertificate(u32),
    /// 23: the words or the lab use a part of the program that isn't there yet.
    NotBuilt,
    /// 24: a relation is asked of this entry, which isn't of kind `memory-one`.
    NotVector(u32),
}

impl Refusal {
    ghost use Rattle.refusals.specs.Refusal.{number_of, name_of};

    /// The number, from 1 to 24.
    pub fn number(&self) -> u32
        ensures { result ≡ number_of self.now }
    {
        match self {
            Refusal::TooLong(_) => 1,
            Refusal::Syntax => 2,
            Refusal::Version => 3,
            Refusal::MissingKey(_) => 4,
            Refusal::WrongType(_) => 5,
            Refusal::OutOfRange(_) => 6,
            Refusal::BadName(_) => 7,
            Refusal::DoubledName(_) => 8,
            Refusal::UnknownKind(_) => 9,
            Refusal::BadRows(_, _) => 10,
            Refusal::UnknownPlug(_) => 11,
            Refusal::TooManyRows(_) => 12,
            Refusal::NoJob => 13,
            Refusal::UnknownEntry(_) => 14,
            Refusal::TooManyTurns => 15,
            Refusal::TooMuchWork => 16,
            Refusal::NotSure(_) => 17,
            Refusal::NoFitness => 18,
            Refusal::BadBoard => 19,
            Refusal::DoubledEdge(_) => 20,
            Refusal::BadCheckpoint(_, _) => 21,
            Refusal::BadCertificate(_) => 22,
            Refusal::NotBuilt => 23,
            Refusal::NotVector(_) => 24,
        }
    }

    /// The name: that of the variant.
    pub fn name(&self) -> &'static str
        ensures { result.now ≡ name_of self.now }
    {
        match self {
            Refusal::TooLong(_) => "TooLong",
            Refusal::Syntax => "Syntax",
            Refusal::Version => "Version",
            Refusal::MissingKey(_) => "MissingKey",
            Refusal::WrongType(_) => "WrongType",
            Refusal::OutOfRange(_) => "OutOfRange",
            Refusal::BadName(_) => "BadName",
            Refusal::DoubledName(_) => "DoubledName",
            Refusal::UnknownKind(_) => "UnknownKind",
            Refusal::BadRows(_, _) => "BadRows",
            Refusal::UnknownPlug(_) => "UnknownPlug",
            Refusal::TooManyRows(_) => "TooManyRows",
            Refusal::NoJob => "NoJob",
            Refusal::UnknownEntry(_) => "UnknownEntry",
            Refusal::TooManyTurns => "TooManyTurns",
            Refusal::TooMuchWork => "TooMuchWork",
            Refusal::NotSure(_) => "NotSure",
            Refusal::NoFitness => "NoFitness",
            Refusal::BadBoard => "BadBoard",
            Refusal::DoubledEdge(_) => "DoubledEdge",
            Refusal::BadCheckpoint(_, _) => "BadCheckpoint",
            Refusal::BadCertificate(_) => "BadCertificate",
            Refusal::NotBuilt => "NotBuilt",
            Refusal::NotVector(_) => "NotVector",
        }
    }
}

/// Why a file isn't read into what it stands for.
#[derive(Clone, Copy, Debug, Error)]
pub enum FileError {
    /// The file is refused, for this reason.
    #[error("refused")]
    Refused(Refusal),
    /// Want of memory, whatever the file holds.
    #[error("no memory")]
    NoMemory,
}

impl From<Refusal> for FileError {
    ghost from_gives = { λ refusal e. e ≡ Refused refusal };

    fn from(refusal: Refusal) -> Self {
        FileError::Refused(refusal)
    }
}

impl From<AllocError> for FileError {
    ghost from_gives = { λ _ e. e ≡ NoMemory };

    fn from(_: AllocError) -> Self {
        FileError::NoMemory
    }
}

impl<T: Drop> From<AllocFailed<T>> for FileError {
    ghost from_gives = { λ _ e. e ≡ NoMemory };

    fn from(_: AllocFailed<T>) -> Self {
        FileError::NoMemory
    }
}
