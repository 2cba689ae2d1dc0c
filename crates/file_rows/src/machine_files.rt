//! Files of a machine against sheets and refusals that were worked out by hand from the rules for such
//! files.
use crate::told::{error_text, sheet_text};
use history_model::Move;
use std::alloc::Global;
use std::fmt::Write;
use std::test::Fail;
use strategy_file::{FileName, MachineFile, read_machine_csv};

const HEAD: &str = "state,heard,next,play\n";

// The machine of most cases: it starts in state 7 and opens with D.
const ROWS: &str = "7,C,9,D\n9,D,7,C\n7,D,7,D\n9,C,9,C\n";

const SHEET: &str = "Machine 1 0 0 0 - [0] [0, 0, 1, 1] [1, 0, 1, 0]";

// Whole files, and what comes of them.
const FILES: [(&str, &str); 15] = [
    (
        "state,heard,next,play\r\n7,C,9,D\r\n9,D,7,C\r\n7,D,7,D\r\n9,C,9,C",
        SHEET,
    ),
    (
        "state,heard,next,play\r7,C,9,D\r9,D,7,C\r7,D,7,D\r9,C,9,C\r",
        SHEET,
    ),
    (
        "\n\nstate,heard,next,play\n\n7,C,9,D\n\r\n9,D,7,C\n7,D,7,D\n\n9,C,9,C\n\n",
        SHEET,
    ),
    (
        "\u{feff}\"state\",heard,next,\"play\"\n\"7\",\"C\",9,D\n9,D,\"7\",C\n7,D,7,D\n9,C,9,\"C",
        SHEET,
    ),
    ("", "BadRows(3, 0)"),
    ("\u{feff}\n", "BadRows(3, 0)"),
    ("\r\n\n", "BadRows(3, 0)"),
    ("7,C,9,D\n9,D,7,C\n7,D,7,D\n9,C,9,C\n", "BadRows(3, 0)"),
    ("State,heard,next,play\n7,C,7,C\n7,D,7,D\n", "BadRows(3, 0)"),
    ("state,heard,play,next\n7,C,7,C\n7,D,7,D\n", "BadRows(3, 0)"),
    (
        "state,heard,next, play\n7,C,7,C\n7,D,7,D\n",
        "BadRows(3, 0)",
    ),
    ("state,heard,next\n7,C,7,C\n7,D,7,D\n", "BadRows(3, 0)"),
    (
        "state,heard,next,play,\n7,C,7,C\n7,D,7,D\n",
        "BadRows(3, 0)",
    ),
    ("state,heard,next,play", "BadRows(3, 1)"),
    (
        "\"state,heard,next,play\n7,C,7,C\n7,D,7,D\n",
        "BadRows(3, 0)",
    ),
];

// The rows of a file with a right head, and what comes of them.
const BODIES: [(&str, &str); 28] = [
    (ROWS, SHEET),
    ("7,C,0,D\n0,D,7,C\n7,D,7,D\n0,C,0,C\n", SHEET),
    (
        "7,C,65535,D\n65535,D,7,C\n7,D,7,D\n65535,C,65535,C\n",
        SHEET,
    ),
    ("7,C,9,D\n9,D,7,C\n7,D,7,D\n", "BadRows(3, 4)"),
    ("7,C,9,D\n9,D,7,C\n9,C,9,C\n", "BadRows(3, 4)"),
    ("7,C,9,D\n9,D,7,C\n7,C,9,D\n", "BadRows(3, 3)"),
    ("7,C,9,D\n9,D,7,C\n7,D,7,D\n9,C,9,\"C\n", "BadRows(3, 4)"),
    ("9,C,9,C\n9,D,9,C\n", "BadRows(3, 3)"),
    ("7,C,9\n", "BadRows(3, 1)"),
    ("7,C,7,C\n7,D,7,D,\n", "BadRows(3, 2)"),
    (" \n", "BadRows(3, 1)"),
    ("# 7\n", "BadRows(3, 1)"),
    ("7,C,7,C\n07,D,7,D\n", "BadRows(3, 2)"),
    ("7,C,00,C\n", "BadRows(3, 1)"),
    ("+7,C,7,C\n", "BadRows(3, 1)"),
    ("7,C,-7,C\n", "BadRows(3, 1)"),
    (" 7,C,7,C\n", "BadRows(3, 1)"),
    ("7,C,7.0,C\n", "BadRows(3, 1)"),
    ("7,C,,C\n", "BadRows(3, 1)"),
    ("7,C,65536,C\n", "BadRows(3, 1)"),
    ("7,C,4294967303,C\n", "BadRows(3, 1)"),
    ("7,C,18446744073709551623,C\n", "BadRows(3, 1)"),
    ("7,c,7,C\n", "BadRows(3, 1)"),
    ("7,C,7,d\n", "BadRows(3, 1)"),
    ("7,C,7,CC\n", "BadRows(3, 1)"),
    ("7,,7,C\n", "BadRows(3, 1)"),
    ("7,C,7,\"C\"\"\"\n", "BadRows(3, 1)"),
    ("\"7\n\",C,7,C\n", "BadRows(3, 1)"),
];

// What the file of the third entry's machine is, as a line.
fn answer(alloc: Global, bytes: &[u8]) -> Result<String, Fail> {
    let file = FileName::read(alloc, "rows.csv")?.ok_or("no name")?;
    let machine = MachineFile {
        file,
        start: 7,
        opening: Move::D,
    };
    match read_machine_csv(alloc, bytes, 3, &machine) {
        Ok(sheet) => sheet_text(alloc, &sheet),
        Err(error) => error_text(alloc, &error),
    }
}

#[test]
fn reads_machine_files(rt: HostRuntime) -> Result<(), Fail> {
    for (file, want) in FILES {
        let found = answer(rt.alloc(), file.as_bytes())?;
        assert_eq!(rt; found.as_str(), want, "at {file}");
    }
    for (rows, want) in BODIES {
        let file = format!(in rt.alloc(); "{HEAD}{rows}")?;
        let found = answer(rt.alloc(), file.as_bytes())?;
        assert_eq!(rt; found.as_str(), want, "at {rows}");
    }
    let no_text = answer(rt.alloc(), &[0xFF, 0xFE])?;
    assert_eq!(rt; no_text.as_str(), "BadRows(3, 0)");
    Ok(())
}

// A file whose machine goes round so many states on hearing C, and stays where it is on hearing D.
fn ring(alloc: Global, states: u16) -> Result<String, Fail> {
    let mut text = String::from_str(alloc, HEAD)?;
    let end = 7 + u32::from(states);
    for state in 7..end {
        let next = if state + 1 < end { state + 1 } else { 7 };
        write!(text, "{state},C,{next},C\n{state},D,{state},D\n")?;
    }
    Ok(text)
}

#[test]
fn limits_machine_files(rt: HostRuntime) -> Result<(), Fail> {
    let mut file = ring(rt.alloc(), 256)?;
    for _ in file.len()..1_048_576 {
        file.push('\n')?;
    }
    let most = answer(rt.alloc(), file.as_bytes())?;
    assert!(rt; most.starts_with("Machine 1 0 0 0 - [0] [1, 0, 1, 0, "));
    assert!(rt; most.ends_with(" 254, 253, 255, 254, 0, 255]"));
    file.push('\n')?;
    let longer = answer(rt.alloc(), file.as_bytes())?;
    assert_eq!(rt; longer.as_str(), "TooLong(Machine(3))");
    let more = answer(rt.alloc(), ring(rt.alloc(), 257)?.as_bytes())?;
    assert_eq!(rt; more.as_str(), "TooManyRows(3)");
    Ok(())
}
