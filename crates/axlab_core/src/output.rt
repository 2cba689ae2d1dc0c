//! What the work of a command gives.
ghost use Rattle.std.specs.Prelude.{◌≡◌, OnOk, IfErr};
ghost use Rattle.std.specs.Result.{ForOk};
ghost use Rattle.lab_ports.specs.Causes.{Rose};
ghost use Rattle.lab_ports.specs.Holding.{Grew};
ghost use Rattle.axlab_core.specs.Output.{Delivers, IsSendable, output_text};
ghost use Rattle.axlab_core.specs.Sent.{Stopped};

use crate::Status;
use crate::sending::{SendError, send_report};
use lab_ports::{Sink, send};
use lab_report::Report;
use std::alloc::Global;

/// What the work of a command gives: a report, or other bytes as they stand.
#[derive(Drop)]
pub(crate) enum Output {
    Report(Report),
    Whole(Vec<u8>),
}

/// Why the work of a command gives nothing.
#[derive(Clone, Copy, Debug)]
pub(crate) enum Hindrance {
    /// This line of what was read is denied.
    Denied(u32),
    /// Want of memory.
    NoMemory,
}

// Writes the text of an output to the sink.
fn send_output<O: Sink>(alloc: Global, output: &Output, out: &mut O) -> Result<(), SendError>
    requires { IsSendable output.now }
    ensures sent { OnOk result (Grew (O.taken out.old) (O.taken out.new) (output_text output.now)) }
    ensures stopped { IfErr result (λ error. Stopped error (O.taken out.old) (O.taken out.new) (output_text output.now) (Rose (O.faults out.old) (O.faults out.new))) }
{
    match output {
        Output::Report(report) => send_report(alloc, report, out),
        Output::Whole(bytes) => match send(out, bytes.as_slice()) {
            Ok(()) => Ok(()),
            Err(_) => Err(SendError::Failed),
        },
    }
}

/// Writes what the work of a command gave, and says how the call ends.
pub(crate) fn deliver<O: Sink>(
    alloc: Global,
    served: Result<Output, Hindrance>,
    out: &mut O,
) -> Status
    requires { ForOk served IsSendable }
    ensures { Delivers served (O.taken out.old) (O.taken out.new) (Rose (O.faults out.old) (O.faults out.new)) result }
{
    match served {
        Ok(output) => match send_output(alloc, &output, out) {
            Ok(()) => Status::Answered,
            Err(SendError::Failed) => Status::WriteFault,
            Err(SendError::NoMemory) => Status::NoMemory,
        },
        Err(Hindrance::Denied(line)) => Status::Denied(line),
        Err(Hindrance::NoMemory) => Status::NoMemory,
    }
}
