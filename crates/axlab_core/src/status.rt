//! How the program ends.
ghost use Rattle.std.specs.Prelude.{◌≡◌};

use lab_ports::Refusal;

/// The answer of the top call. Its number is the exit status of the program.
#[derive(Clone, Copy, Debug, PartialEq, Eq)]
pub enum Status {
    /// The report stands whole on the output.
    Answered,
    /// A certificate fails first at this line.
    Denied(u32),
    /// The words are of no listed form.
    Usage,
    /// A file couldn't be read.
    ReadFault,
    /// The files are refused.
    Refused(Refusal),
    /// The report couldn't be written.
    WriteFault,
    /// Memory was wanted and not there.
    NoMemory,
}

impl Status {
    ghost use Rattle.axlab_core.specs.Outcome.{number_of};

    /// The exit status: 0 for an answer, and 1 to 6 for the others in their order.
    pub fn number(&self) -> u8
        ensures { result ≡ number_of self.now }
    {
        match self {
            Status::Answered => 0,
            Status::Denied(_) => 1,
            Status::Usage => 2,
            Status::ReadFault => 3,
            Status::Refused(_) => 4,
            Status::WriteFault => 5,
            Status::NoMemory => 6,
        }
    }
}
