//! What can be wrong in a checkpoint.
ghost use Rattle.std.specs.Prelude.{◌≡◌};
ghost use Rattle.checkpoint.specs.Errors.{error_of};
ghost use Rattle.checkpoint.specs.declared.fault.RotaError.TheVariants.{NoMemory};

use std::alloc::{AllocError, AllocFailed};

/// What is wrong in a checkpoint, with the number of the first line at which something is. Lines count
/// from 1.
#[derive(Clone, Copy, Debug, PartialEq, Eq)]
pub enum Fault {
    /// The line isn't one that can stand here. A line that is missing is the one after the last; what no
    /// LF ends is no line.
    BadLine(u32),
    /// The line shows a match of other names.
    WrongPair(u32),
    /// The line shows a mark that is no row of what its entry plays.
    BadMark(u32),
}

/// Why bytes are no checkpoint of a rota, as a [`Fault`] tells it, or want of memory.
#[derive(Clone, Copy, Debug, PartialEq, Eq)]
pub enum RotaError {
    /// The line of this number isn't one that can stand here.
    BadLine(u32),
    /// The line of this number shows a match of other names.
    WrongPair(u32),
    /// The line of this number shows a mark that is no row of what its entry plays.
    BadMark(u32),
    /// Want of memory.
    NoMemory,
}

impl From<Fault> for RotaError {
    ghost from_gives = { λ fault error. error ≡ error_of fault };

    fn from(fault: Fault) -> RotaError {
        match fault {
            Fault::BadLine(line) => RotaError::BadLine(line),
            Fault::WrongPair(line) => RotaError::WrongPair(line),
            Fault::BadMark(line) => RotaError::BadMark(line),
        }
    }
}

impl From<AllocError> for RotaError {
    ghost from_gives = { λ _ error. error ≡ NoMemory };

    fn from(_: AllocError) -> RotaError {
        RotaError::NoMemory
    }
}

impl<T: Drop> From<AllocFailed<T>> for RotaError {
    ghost from_gives = { λ _ error. error ≡ NoMemory };

    fn from(_: AllocFailed<T>) -> RotaError {
        RotaError::NoMemory
    }
}
