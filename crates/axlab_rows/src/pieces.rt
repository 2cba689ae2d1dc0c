//! Reports that are sent in pieces.
use crate::call::{Around, calm, run, run_into};
use axlab_core::Status;
use lab_ports::{Sink, SinkFailed};
use std::alloc::Global;
use std::fmt::Write;
use std::test::Fail;

/// A sink that takes each piece whole, and notes how long it is. It doesn't tell what it has taken.
#[derive(Drop)]
struct Recorder {
    bytes: Vec<u8>,
    lengths: Vec<usize>,
    faults: u64,
}

impl Sink for Recorder {
    ghost use Rattle.std.specs.Prelude.{None};

    ghost taken = { λ s. None };

    ghost faults = { λ s. s.faults };

    fn write(&mut self, piece: &[u8]) -> Result<usize, SinkFailed> {
        if self.bytes.extend_from_slice(piece).is_err() || self.lengths.push(piece.len()).is_err() {
            self.faults = self.faults.saturating_add(1);
            return Err(SinkFailed);
        }
        Ok(piece.len())
    }
}

// A tournament of 64 entries, each of which meets the first one.
fn star(alloc: Global) -> Result<String, Fail> {
    let mut text = String::from_str(alloc, "version = 1\n")?;
    for entry in 0..64_u32 {
        let name = format!(in alloc; "name = \"e{entry}\"")?;
        write!(
            text,
            "[[entry]]\n{name}\nkind = \"plug\"\nplug = \"Grudger\"\n"
        )?;
    }
    write!(text, "[tournament]\nturns = 5\nedges = [\n")?;
    for entry in 1..64_u32 {
        write!(text, "[\"e0\", \"e{entry}\"],\n")?;
    }
    write!(text, "]\n")?;
    Ok(text)
}

#[test]
fn fails_in_the_second_piece(rt: HostRuntime) -> Result<(), Fail> {
    let alloc = rt.alloc();
    let lab = star(alloc)?;
    let around = Around {
        room: 100_000,
        ..calm(lab.as_bytes())
    };
    let whole = run(alloc, "tournament lab", around)?;
    let failing = Around {
        failing_write: 2,
        ..around
    };
    let failed = run(alloc, "tournament lab", failing)?;
    assert_eq!(rt; whole.status, Status::Answered);
    assert_eq!(rt; failed.status, Status::WriteFault);
    let front = whole.out.chunks(4096).next().ok_or("no report")?;
    assert_eq!(rt; failed.out.as_slice(), front);
    assert_eq!(rt; front.len(), 4096);
    Ok(())
}

#[test]
fn sends_pieces(rt: HostRuntime) -> Result<(), Fail> {
    let alloc = rt.alloc();
    let lab = star(alloc)?;
    let around = Around {
        room: 100_000,
        ..calm(lab.as_bytes())
    };
    let whole = run(alloc, "tournament lab", around)?;
    let mut recorder = Recorder {
        bytes: Vec::new(alloc),
        lengths: Vec::new(alloc),
        faults: 0,
    };
    let ran = run_into(alloc, "tournament lab", around, &mut recorder)?;
    assert_eq!(rt; ran.status, Status::Answered);
    assert_eq!(rt; recorder.bytes.as_slice(), whole.out.as_slice());
    assert!(rt; recorder.lengths.len() > 1);
    assert!(rt; recorder.lengths.iter().all(|length| *length <= 4096));
    Ok(())
}
