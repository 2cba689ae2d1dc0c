//! One call of the program over files and sinks in memory.
use axlab_core::{Status, axlab};
use lab_ports::{MemoryFile, MemoryLibrary, MemorySink, Sink};
use lookup_player::LookupPlayer;
use machine_player::MachinePlayer;
use memory_player::MemoryPlayer;
use player_core::{Bench, Side};
use plug_players::{Builtin, PlugPlayer};
use std::alloc::Global;
use std::test::Fail;

/// The rows of a machine that repeats what it heard, as a file has them.
pub(crate) const ECHO: &str = "state,heard,next,play\n0,C,0,C\n0,D,0,D\n";

/// How a call of the program ended, as plain values.
#[derive(Drop)]
pub(crate) struct Ran {
    pub(crate) status: Status,
    pub(crate) out: Vec<u8>,
    pub(crate) err: Vec<u8>,
    /// How often the library was read.
    pub(crate) calls: u32,
    /// How often players were advanced, on both sides together.
    pub(crate) advances: u64,
}

/// What stands around a call. The library holds the files `lab`, `machine.csv`, and `echo.csv`, which
/// is `ECHO`.
#[derive(Clone, Copy)]
pub(crate) struct Around<'a> {
    pub(crate) lab: &'a [u8],
    pub(crate) machine: &'a str,
    /// The call of the library that fails, from 1; 0 for none.
    pub(crate) failing_read: u32,
    /// The call of the output that fails, from 1; 0 for none.
    pub(crate) failing_write: u32,
    /// The bytes that the output takes.
    pub(crate) room: u32,
}

/// Files and sinks that never fail, around this lab.
pub(crate) fn calm(lab: &[u8]) -> Around<'_> {
    Around {
        lab,
        machine: "",
        failing_read: 0,
        failing_write: 0,
        room: 1000,
    }
}

fn numbers(alloc: Global, number: u32) -> Result<Vec<u32>, Fail> {
    let mut numbers = Vec::new(alloc);
    numbers.push(number)?;
    Ok(numbers)
}

fn held(alloc: Global, name: &str, bytes: &[u8]) -> Result<MemoryFile, Fail> {
    Ok(MemoryFile {
        name: name.as_bytes().to_vec(alloc)?,
        bytes: bytes.to_vec(alloc)?,
    })
}

// How often the players of both sides were advanced so far.
fn advances(bench: &Bench) -> u64 {
    let mut sum: u64 = 0;
    for player in bench.left.iter().chain(bench.right.iter()) {
        sum = sum.saturating_add(player.advances());
    }
    sum
}

/// Runs the program on the words, which are cut at spaces, on a bench like main's.
pub(crate) fn run(alloc: Global, line: &str, around: Around<'_>) -> Result<Ran, Fail> {
    let mut out = MemorySink::new(alloc, around.room, numbers(alloc, around.failing_write)?)?;
    let ran = run_into(alloc, line, around, &mut out)?;
    Ok(Ran {
        out: out.bytes,
        ..ran
    })
}

/// The same with another output; what is said of the output is empty.
pub(crate) fn run_into<O: Sink>(
    alloc: Global,
    line: &str,
    around: Around<'_>,
    out: &mut O,
) -> Result<Ran, Fail> {
    let mut words = Vec::new(alloc);
    for word in line.split_whitespace() {
        words.push(String::from_str(alloc, word)?)?;
    }
    let mut files = Vec::new(alloc);
    files.push(held(alloc, "lab", around.lab)?)?;
    files.push(held(alloc, "echo.csv", ECHO.as_bytes())?)?;
    files.push(held(alloc, "machine.csv", around.machine.as_bytes())?)?;
    let mut library = MemoryLibrary::new(files, numbers(alloc, around.failing_read)?);
    let mut err = MemorySink::new(alloc, 1000, Vec::new(alloc))?;
    let mut left: Side = Vec::new(alloc);
    let mut right: Side = Vec::new(alloc);
    left.push(Box::new(alloc, MemoryPlayer::new(alloc)?)?)?;
    right.push(Box::new(alloc, MemoryPlayer::new(alloc)?)?)?;
    left.push(Box::new(alloc, MachinePlayer::new(alloc)?)?)?;
    right.push(Box::new(alloc, MachinePlayer::new(alloc)?)?)?;
    left.push(Box::new(alloc, LookupPlayer::new(alloc)?)?)?;
    right.push(Box::new(alloc, LookupPlayer::new(alloc)?)?)?;
    for which in Builtin::ALL {
        left.push(Box::new(alloc, PlugPlayer::new(which))?)?;
        right.push(Box::new(alloc, PlugPlayer::new(which))?)?;
    }
    let mut bench = Bench { left, right };
    if !bench.fits() {
        return Err(Fail::from("the bench doesn't fit"));
    }
    let before = advances(&bench);
    let status = axlab(alloc, &words, &mut library, out, &mut err, &mut bench);
    Ok(Ran {
        status,
        out: Vec::new(alloc),
        err: err.bytes,
        calls: library.calls,
        advances: advances(&bench).saturating_sub(before),
    })
}
