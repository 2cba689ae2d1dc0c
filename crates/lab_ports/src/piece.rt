//! Texts that are put together from pieces, and written without memory.
ghost use Rattle.std.specs.Prelude.{◌≡◌, ◌≤◌, [], OnOk, OnErr, IsOk};
ghost use Rattle.lab_ports.specs.Causes.{Rose};
ghost use Rattle.lab_ports.specs.Holding.{Grew, GrewByPart};
ghost use Rattle.refusals.specs.Piece.{piece_text, joined};

use crate::{Sink, SinkFailed, send};
use itoa::Buffer;
use refusals::Piece;

fn send_piece<S: Sink>(sink: &mut S, piece: &Piece) -> Result<(), SinkFailed>
    ensures sent { OnOk result (Grew (S.taken sink.old) (S.taken sink.new) (piece_text piece.now)) }
    ensures part { OnErr result (GrewByPart (S.taken sink.old) (S.taken sink.new) (piece_text piece.now)) }
    ensures later { S.faults sink.old ≤ S.faults sink.new }
    ensures failed { OnErr result (Rose (S.faults sink.old) (S.faults sink.new)) }
{
    match piece {
        Piece::Text(words) => send(sink, words.as_bytes()),
        Piece::Number(n) => send(sink, Buffer::new().format(*n).as_bytes()),
    }
}

/// Writes the text of all pieces to the sink, as `send` does with one.
///
/// # Errors
///
/// `SinkFailed`, and the sink has taken a front part of the text that isn't all of it.
pub fn send_pieces<S: Sink>(sink: &mut S, pieces: &[Piece]) -> Result<(), SinkFailed>
    ensures sent { OnOk result (Grew (S.taken sink.old) (S.taken sink.new) (joined pieces.now)) }
    ensures part { OnErr result (GrewByPart (S.taken sink.old) (S.taken sink.new) (joined pieces.now)) }
    ensures later { S.faults sink.old ≤ S.faults sink.new }
    ensures failed { OnErr result (Rose (S.faults sink.old) (S.faults sink.new)) }
{
    for piece in pieces {
        send_piece(sink, piece)?;
    }
    Ok(())
}
