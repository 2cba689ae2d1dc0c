//! Ports: that they can succeed, and that the words and numbers are the agreed ones.
use lab_ports::{
    FileRole, FolderLibrary, KeyName, Library, LibraryError, MemoryFile, MemoryLibrary, MemorySink,
    Piece, Place, Refusal, RowCause, SinkFailed, StreamSink, TableName, send, send_pieces,
    tell_refusal,
};
use std::alloc::Global;
use std::io;
use std::io::{ErrorKind, Write};
use std::test::Fail;

// A text of some length, in which neighbouring bytes differ.
fn text_of(alloc: Global, len: u32) -> Result<Vec<u8>, Fail> {
    let mut text = Vec::new(alloc);
    for k in 0..len {
        text.push((k % 251) as u8)?;
    }
    Ok(text)
}

#[test]
fn sends_until_a_call_fails(rt: HostRuntime) -> Result<(), Fail> {
    // the text's length, the room, the call that fails; the bytes taken, the calls, the faults
    let rows = [
        (60, 1000, 0, 60, 1, 0),
        (60, 20, 0, 20, 2, 1),
        (60, 1000, 1, 0, 1, 1),
        (10_000, 10_000, 0, 10_000, 3, 0),
        (10_000, 10_000, 2, 4096, 2, 1),
        (10_000, 5000, 0, 5000, 3, 1),
        (0, 0, 1, 0, 0, 0),
    ];
    for (len, room, failing, taken, calls, faults) in rows {
        let text = text_of(rt.alloc(), len)?;
        let fails = vec![in rt.alloc(); failing; 1]?;
        let mut sink = MemorySink::new(rt.alloc(), room, fails)?;
        let sent = send(&mut sink, &text);
        assert_eq!(rt;
            sent.is_ok(),
            faults == 0,
            "{len} bytes, room {room}, failing {failing}"
        );
        assert_eq!(rt;
            sink.bytes.len(),
            taken,
            "{len} bytes, room {room}, failing {failing}"
        );
        assert!(rt;
            text.starts_with(&sink.bytes),
            "{len} bytes, room {room}, failing {failing}"
        );
        assert_eq!(rt;
            sink.calls,
            calls,
            "{len} bytes, room {room}, failing {failing}"
        );
        assert_eq!(rt;
            sink.faults,
            faults,
            "{len} bytes, room {room}, failing {failing}"
        );
    }
    Ok(())
}

fn file_of(alloc: Global, name: &str, text: &str) -> Result<MemoryFile, Fail> {
    Ok(MemoryFile {
        name: name.as_bytes().to_vec(alloc)?,
        bytes: text.as_bytes().to_vec(alloc)?,
    })
}

#[test]
fn reads_what_memory_holds(rt: HostRuntime) -> Result<(), Fail> {
    let mut files = Vec::new(rt.alloc());
    files.push(file_of(rt.alloc(), "lab", "first")?)?;
    files.push(file_of(rt.alloc(), "lab", "second")?)?;
    files.push(file_of(rt.alloc(), "empty", "")?)?;
    let mut library = MemoryLibrary::new(files, vec![in rt.alloc(); 3; 1]?);
    let rows = [
        ("lab", 10, Ok("first")),
        ("lab", 2, Ok("fir")),
        ("lab", 10, Err(LibraryError::Failed)),
        ("rows", 10, Err(LibraryError::Missing)),
        ("lab", 4, Ok("first")),
        ("empty", 0, Ok("")),
    ];
    for (name, limit, wanted) in rows {
        let answer = library.read(rt.alloc(), name, limit);
        match (answer, wanted) {
            (Ok(bytes), Ok(text)) => {
                assert_eq!(rt; bytes.as_slice(), text.as_bytes(), "{name} up to {limit}")
            }
            (Err(error), Err(other)) => assert_eq!(rt; error, other, "{name} up to {limit}"),
            _ => assert!(rt; false, "{name} up to {limit}"),
        }
    }
    assert_eq!(rt; library.calls, 6);
    assert_eq!(rt; library.faults, 1);
    Ok(())
}

// A writer that takes three bytes in its first call, and none later: it gives an error, or 0.
#[derive(Drop)]
struct Stopping {
    taken: usize,
    gives_error: bool,
}

impl Write for Stopping {
    fn write(&mut self, buf: &[u8]) -> io::Result<usize> {
        if self.taken == 0 {
            self.taken = buf.len().min(3);
            return Ok(self.taken);
        }
        if self.gives_error {
            return Err(io::Error::from(ErrorKind::BrokenPipe));
        }
        Ok(0)
    }

    fn flush(&mut self) -> io::Result<()> {
        Ok(())
    }
}

#[test]
fn streams_and_files_fail_with_the_system(rt: HostRuntime) -> Result<(), Fail> {
    for gives_error in [false, true] {
        let taken = 0;
        let mut sink = StreamSink::new(Stopping { taken, gives_error });
        assert_eq!(rt; send(&mut sink, b"axl"), Ok(()));
        assert_eq!(rt; send(&mut sink, b""), Ok(()));
        assert_eq!(rt; send(&mut sink, b"ab"), Err(SinkFailed));
    }
    let mut held = Vec::new(rt.alloc());
    assert_eq!(rt; send(&mut StreamSink::new(&mut held), b"axlab"), Ok(()));
    assert_eq!(rt; held.as_slice(), b"axlab".as_slice());
    let mut library = FolderLibrary::new(&rt);
    let answer = library.read(rt.alloc(), "no such file", 10);
    assert_eq!(rt; answer.err(), Some(LibraryError::Failed));
    Ok(())
}

#[test]
fn names_refusals_and_keys(rt: HostRuntime) {
    let table = TableName::Game;
    let key = KeyName::P;
    let place = Place {
        table,
        entry: 0,
        key,
    };
    let rows = [
        (Refusal::Syntax, 2, "Syntax"),
        (Refusal::WrongType(place), 5, "WrongType"),
        (Refusal::BadRows(1, 2), 10, "BadRows"),
        (Refusal::DoubledEdge(2), 20, "DoubledEdge"),
        (Refusal::NotBuilt, 23, "NotBuilt"),
    ];
    for (refusal, number, name) in rows {
        assert_eq!(rt; refusal.number(), number);
        assert_eq!(rt; refusal.name(), name);
    }
    assert_eq!(rt; table.word(), "game");
    assert_eq!(rt; key.word(), "p");
    assert_eq!(rt; KeyName::SelfPlay.word(), "self_play");
}

fn place(table: TableName, entry: u32, key: KeyName) -> Place {
    Place { table, entry, key }
}

// Each refusal and what stands behind `axlab: refused ` in its line.
fn told_refusals() -> [(Refusal, &'static str); 28] {
    let game = place(TableName::Game, 0, KeyName::P);
    let entry = place(TableName::Entry, 3, KeyName::Weights);
    let top = place(TableName::Top, 0, KeyName::Version);
    let job = place(TableName::Match, 0, KeyName::Left);
    [
        (Refusal::TooLong(FileRole::Lab), "1 TooLong lab"),
        (
            Refusal::TooLong(FileRole::Machine(2)),
            "1 TooLong machine 2",
        ),
        (Refusal::TooLong(FileRole::Rows), "1 TooLong rows"),
        (Refusal::TooLong(FileRole::Cert), "1 TooLong certificate"),
        (Refusal::Syntax, "2 Syntax"),
        (Refusal::Version, "3 Version"),
        (Refusal::MissingKey(top), "4 MissingKey top version"),
        (Refusal::WrongType(entry), "5 WrongType entry 3 weights"),
        (Refusal::OutOfRange(game), "6 OutOfRange game p"),
        (Refusal::BadName(3), "7 BadName entry 3"),
        (Refusal::DoubledName(64), "8 DoubledName entry 64"),
        (Refusal::UnknownKind(1), "9 UnknownKind entry 1"),
        (Refusal::BadRows(1, 2), "10 BadRows entry 1 row 2"),
        (Refusal::UnknownPlug(10), "11 UnknownPlug entry 10"),
        (Refusal::TooManyRows(7), "12 TooManyRows entry 7"),
        (Refusal::NoJob, "13 NoJob"),
        (Refusal::UnknownEntry(job), "14 UnknownEntry match left"),
        (Refusal::TooManyTurns, "15 TooManyTurns"),
        (Refusal::TooMuchWork, "16 TooMuchWork"),
        (Refusal::NotSure(5), "17 NotSure entry 5"),
        (Refusal::NoFitness, "18 NoFitness"),
        (Refusal::BadBoard, "19 BadBoard"),
        (Refusal::DoubledEdge(2), "20 DoubledEdge edge 2"),
        (
            Refusal::BadCheckpoint(4, RowCause::BadMark),
            "21 BadCheckpoint line 4 BadMark",
        ),
        (
            Refusal::BadCheckpoint(1, RowCause::BadLine),
            "21 BadCheckpoint line 1 BadLine",
        ),
        (
            Refusal::BadCheckpoint(4_294_967_295, RowCause::WrongPair),
            "21 BadCheckpoint line 4294967295 WrongPair",
        ),
        (Refusal::BadCertificate(8), "22 BadCertificate line 8"),
        (Refusal::NotBuilt, "23 NotBuilt"),
    ]
}

#[test]
fn tells_refusals(rt: HostRuntime) -> Result<(), Fail> {
    for (refusal, told) in told_refusals() {
        let mut sink = MemorySink::new(rt.alloc(), 1000, Vec::new(rt.alloc()))?;
        assert_eq!(rt; tell_refusal(&mut sink, &refusal), Ok(()), "{told}");
        let text = format!(in rt.alloc(); "axlab: refused {told}\n")?;
        assert_eq!(rt; sink.bytes.as_slice(), text.as_bytes(), "{told}");
        let mut failing = MemorySink::new(rt.alloc(), 1000, vec![in rt.alloc(); 2; 1]?)?;
        assert_eq!(rt;
            tell_refusal(&mut failing, &refusal),
            Err(SinkFailed),
            "{told}"
        );
        assert!(rt; text.as_bytes().starts_with(&failing.bytes), "{told}");
        assert!(rt;
            failing.bytes.len() > 0 && failing.bytes.len() < text.len(),
            "{told}"
        );
    }
    let denied = [
        Piece::Text("axlab: denied at line "),
        Piece::Number(5),
        Piece::Text("\n"),
    ];
    let mut sink = MemorySink::new(rt.alloc(), 1000, Vec::new(rt.alloc()))?;
    assert_eq!(rt; send_pieces(&mut sink, &denied), Ok(()));
    assert_eq!(rt;
        sink.bytes.as_slice(),
        b"axlab: denied at line 5\n".as_slice()
    );
    Ok(())
}
