// Runs the command of the words over the files of the system.
#![tactic(auto)]

use axlab_core::{Status, axlab};
use history_model::NoMemory;
use lab_ports::{FolderLibrary, Library, Sink, StreamSink, send};
use lookup_player::LookupPlayer;
use machine_player::MachinePlayer;
use memory_player::MemoryPlayer;
use player_core::{Bench, Side};
use plug_players::{Builtin, PlugPlayer};
use std::alloc::Global;
use std::process::ExitCode;
use std::rt::Env;
use std::{env, io};

// What is told where the words or the players can't be held.
const NO_MEMORY: &[u8] = b"axlab: no memory\n";

// The words after the program's name.
fn words_of<R: Env + AllocGlobal>(rt: &R) -> io::Result<Vec<String>> {
    let mut words: Vec<String> = Vec::new(rt.alloc());
    for word in env::args(rt)?.skip(1) {
        words.push(word)?;
    }
    Ok(words)
}

// Runs the program on a bench that has one player of each kind and every built-in on each side.
fn run<L: Library, O: Sink, E: Sink>(
    alloc: Global,
    words: &Vec<String>,
    files: &mut L,
    out: &mut O,
    err: &mut E,
) -> Result<Status, NoMemory> {
    let mut left: Side = Vec::new(alloc);
    left.push(Box::new(alloc, MemoryPlayer::new(alloc)?)?)?;
    left.push(Box::new(alloc, MachinePlayer::new(alloc)?)?)?;
    left.push(Box::new(alloc, LookupPlayer::new(alloc)?)?)?;
    let mut right: Side = Vec::new(alloc);
    right.push(Box::new(alloc, MemoryPlayer::new(alloc)?)?)?;
    right.push(Box::new(alloc, MachinePlayer::new(alloc)?)?)?;
    right.push(Box::new(alloc, LookupPlayer::new(alloc)?)?)?;
    for which in Builtin::ALL {
        left.push(Box::new(alloc, PlugPlayer::new(which))?)?;
        right.push(Box::new(alloc, PlugPlayer::new(which))?)?;
    }
    let mut bench = Bench { left, right };
    // This bench fits. The test tells the call so.
    if !bench.fits() {
        return Err(NoMemory);
    }
    Ok(axlab(alloc, words, files, out, err, &mut bench))
}

fn main(rt: HostRuntime) -> ExitCode {
    let alloc = rt.alloc();
    let words = words_of(&rt);
    let mut out = StreamSink::new(rt.stdout());
    let mut err = StreamSink::new(rt.stderr());
    let mut files = FolderLibrary::new(rt);
    let ended = match words {
        Ok(words) => run(alloc, &words, &mut files, &mut out, &mut err),
        Err(_) => Err(NoMemory),
    };
    let status = match ended {
        Ok(status) => status,
        Err(NoMemory) => {
            let _ = send(&mut err, NO_MEMORY);
            Status::NoMemory
        }
    };
    ExitCode::from(status.number())
}
