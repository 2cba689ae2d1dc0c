//! The line that tells a refusal, sent.
ghost use Rattle.std.specs.Prelude.{◌≤◌, OnOk, OnErr};
ghost use Rattle.lab_ports.specs.Causes.{Rose};
ghost use Rattle.refusals.specs.Detail.{refusal_text};
ghost use Rattle.lab_ports.specs.Holding.{Grew, GrewByPart};

use crate::{Sink, SinkFailed, send_pieces};
use refusals::{Refusal, refusal_line};

/// Writes the line that tells a refusal to the sink, as `axlab: refused 6 OutOfRange game p` with
/// the end of the line: the number, the name, and where the refused thing stands. It takes no
/// memory.
///
/// # Errors
///
/// `SinkFailed`, and the sink has taken a front part of the line that isn't all of it.
pub fn tell_refusal<S: Sink>(sink: &mut S, refusal: &Refusal) -> Result<(), SinkFailed>
    ensures sent { OnOk result (Grew (S.taken sink.old) (S.taken sink.new) (refusal_text refusal.now)) }
    ensures part { OnErr result (GrewByPart (S.taken sink.old) (S.taken sink.new) (refusal_text refusal.now)) }
    ensures later { S.faults sink.old ≤ S.faults sink.new }
    ensures failed { OnErr result (Rose (S.faults sink.old) (S.faults sink.new)) }
{
    send_pieces(sink, &refusal_line(refusal))
}
