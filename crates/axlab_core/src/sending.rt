//! Sends reports, piece by piece.
ghost use Rattle.std.specs.Prelude.{◌≡◌, OnOk, IfErr};
ghost use Rattle.lab_ports.specs.Causes.{Rose};
ghost use Rattle.lab_ports.specs.Holding.{Grew};
ghost use Rattle.report_rules.specs.Text.{report_text};
ghost use Rattle.report_rules.specs.Valid.{IsValid};
ghost use Rattle.axlab_core.specs.Sent.{Stopped};

use history_model::NoMemory;
use lab_ports::{Sink, SinkFailed, growth_adds_up, send};
use lab_report::{Pieces, Report};
use std::alloc::Global;

/// Why a report isn't sent whole.
#[derive(Clone, Copy, Debug)]
pub(crate) enum SendError {
    /// The sink failed.
    Failed,
    /// Want of memory.
    NoMemory,
}

impl From<NoMemory> for SendError {
    ghost use Rattle.axlab_core.specs.declared.sending.SendError.TheVariants as errors;

    ghost from_gives = { λ error e. e ≡ errors.NoMemory };

    fn from(_error: NoMemory) -> Self {
        SendError::NoMemory
    }
}

impl From<SinkFailed> for SendError {
    ghost use Rattle.axlab_core.specs.declared.sending.SendError.TheVariants as errors;

    ghost from_gives = { λ error e. e ≡ errors.Failed };

    fn from(_error: SinkFailed) -> Self {
        SendError::Failed
    }
}

/// Writes the text of a report to the sink, in pieces of at most 4096 bytes. Where it stops the sink
/// has taken a front part of the text.
pub(crate) fn send_report<O: Sink>(
    alloc: Global,
    report: &Report,
    out: &mut O,
) -> Result<(), SendError>
    requires valid { IsValid report.now }
    ensures sent { OnOk result (Grew (O.taken out.old) (O.taken out.new) (report_text report.now)) }
    ensures stopped { IfErr result (λ error. Stopped error (O.taken out.old) (O.taken out.new) (report_text report.now) (Rose (O.faults out.old) (O.faults out.new))) }
{
    growth_adds_up();
    let mut pieces = Pieces::new(alloc, report);
    let mut piece = Vec::new(alloc);
    while pieces.fill(&mut piece)? {
        send(out, piece.as_slice())?;
    }
    Ok(())
}
