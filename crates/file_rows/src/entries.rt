//! Entries of a lab file against drafts and refusals that were worked out by hand from the rules for
//! entries. Each case is the answer in one line and below it the entry that has it.
use crate::told::{error_text, sheet_text};
use history_model::Name;
use player_core::PlugNote;
use std::alloc::Global;
use std::test::Fail;
use strategy_file::{Draft, MachineFile, read_sheet};

const CASES: &str = r#"MissingKey Entry 3 Kind
den = 1

WrongType Entry 3 Kind
kind = 1

UnknownKind(3)
kind = "Memory-One"

MemoryOne 4 0 0 0 - [3] [0, 1, 2, 4] []
kind = "memory-one"
den = 4
opening = 3
weights = [0, 1, 2, 4]

MemoryOne 1000 0 0 0 - [1000] [0, 1000, 0, 0] []
kind = "memory-one"
den = 1000
opening = 1000
weights = [0, 1000, 0, 0]

MissingKey Entry 3 Den
kind = "memory-one"
opening = 5

WrongType Entry 3 Den
kind = "memory-one"
den = 1.0

OutOfRange Entry 3 Den
kind = "memory-one"
den = 0
opening = "C"

OutOfRange Entry 3 Den
kind = "memory-one"
den = 1001

MissingKey Entry 3 Opening
kind = "memory-one"
den = 4
weights = 1

WrongType Entry 3 Opening
kind = "memory-one"
den = 4
opening = "C"

OutOfRange Entry 3 Opening
kind = "memory-one"
den = 4
opening = 5

OutOfRange Entry 3 Opening
kind = "memory-one"
den = 4
opening = -1

MissingKey Entry 3 Weights
kind = "memory-one"
den = 4
opening = 0

WrongType Entry 3 Weights
kind = "memory-one"
den = 4
opening = 0
weights = 1

WrongType Entry 3 Weights
kind = "memory-one"
den = 4
opening = 0
weights = [9, 9, true]

OutOfRange Entry 3 Weights
kind = "memory-one"
den = 4
opening = 0
weights = [0, 1, 2]

OutOfRange Entry 3 Weights
kind = "memory-one"
den = 4
opening = 0
weights = [0, 1, 2, 3, 4]

OutOfRange Entry 3 Weights
kind = "memory-one"
den = 4
opening = 0
weights = [0, 1, 2, 5]

OutOfRange Entry 3 Weights
kind = "memory-one"
den = 4
opening = 0
weights = [-1, 1, 2, 3]

Machine 1 0 0 0 - [1] [1, 0] [0, 0]
kind = "machine"
start = 0
opening = "C"
rows = [[0, "C", 0, "C"], [0, "D", 0, "D"]]

Machine 1 0 0 0 - [0] [0, 1, 1, 0, 1, 1] [1, 0, 2, 0, 2, 1]
kind = "machine"
start = 9
opening = "D"
rows = [[7, "D", 9, "D"], [7, "C", 65535, "C"], [9, "D", 9, "C"], [65535, "C", 65535, "C"], [65535, "D", 7, "C"], [9, "C", 7, "D"]]

MissingKey Entry 3 Start
kind = "machine"
opening = 1

WrongType Entry 3 Start
kind = "machine"
start = "0"

OutOfRange Entry 3 Start
kind = "machine"
start = 65536

MissingKey Entry 3 Opening
kind = "machine"
start = 65535
rows = []

WrongType Entry 3 Opening
kind = "machine"
start = 0
opening = 1
rows = []

OutOfRange Entry 3 Opening
kind = "machine"
start = 0
opening = "c"
rows = []

MissingKey Entry 3 Rows
kind = "machine"
start = 0
opening = "C"

OutOfRange Entry 3 File
kind = "machine"
start = 0
opening = "C"
rows = "none"
file = 1

WrongType Entry 3 Rows
kind = "machine"
start = 0
opening = "C"
rows = { a = 1 }

WrongType Entry 3 File
kind = "machine"
start = 0
opening = "C"
file = 1979-05-27

BadName(3)
kind = "machine"
start = 0
opening = "C"
file = ""

BadName(3)
kind = "machine"
start = 0
opening = "C"
file = "-rows.csv"

BadName(3)
kind = "machine"
start = 0
opening = "C"
file = "r\u00F6ws.csv"

file my rows.csv 65535 D
kind = "machine"
start = 65535
opening = "D"
file = "my rows.csv"

BadRows(3, 1)
kind = "machine"
start = 0
opening = "C"
rows = []

BadRows(3, 1)
kind = "machine"
start = 0
opening = "C"
rows = [0, "C", 0, "C"]

BadRows(3, 2)
kind = "machine"
start = 0
opening = "C"
rows = [[0, "C", 0, "C"]]

BadRows(3, 2)
kind = "machine"
start = 0
opening = "C"
rows = [[0, "C", 0, "C"], [0, "C", 1, "D"]]

BadRows(3, 2)
kind = "machine"
start = 0
opening = "C"
rows = [[0, "C", 0, "C"], [0, "D", 65536, "D"]]

BadRows(3, 3)
kind = "machine"
start = 0
opening = "C"
rows = [[0, "C", 0, "C"], [0, "D", 0, "D"], [0, "C", 0, "D"]]

BadRows(3, 3)
kind = "machine"
start = 0
opening = "C"
rows = [[0, "C", 0, "C"], [0, "D", 1, "D"]]

BadRows(3, 1)
kind = "machine"
start = 0
opening = "C"
rows = [[0, "C", 0, "C", 0]]

BadRows(3, 1)
kind = "machine"
start = 0
opening = "C"
rows = [[0, "E", 0, "C"]]

Lookup 1 0 0 0 - [] [0] []
kind = "lookup"
den = 1
own = 0
other = 0
first = 0
opening = []
table = [0]

Lookup 1 0 2 0 - [1, 1] [1, 0, 1, 1] []
kind = "lookup"
den = 1
own = 0
other = 2
first = 0
opening = [1, 1]
table = [1, 0, 1, 1]

Lookup 9 1 0 2 - [7, 8] [1, 2, 3, 4, 5, 6, 7, 9] []
kind = "lookup"
den = 9
own = 1
other = 0
first = 2
opening = [7, 8]
table = [1, 2, 3, 4, 5, 6, 7, 9]

OutOfRange Entry 3 Den
kind = "lookup"
den = 1001

OutOfRange Entry 3 Own
kind = "lookup"
den = 1
own = 5

WrongType Entry 3 Other
kind = "lookup"
den = 1
own = 4
other = []

MissingKey Entry 3 First
kind = "lookup"
den = 1
own = 4
other = 4

OutOfRange Entry 3 First
kind = "lookup"
den = 1
own = 4
other = 4
first = 1

MissingKey Entry 3 Opening
kind = "lookup"
den = 1
own = 4
other = 4
first = 0

OutOfRange Entry 3 Opening
kind = "lookup"
den = 1
own = 1
other = 2
first = 1
opening = [1]
table = []

OutOfRange Entry 3 Table
kind = "lookup"
den = 1
own = 1
other = 1
first = 0
opening = [1]
table = [1, 1]

OutOfRange Entry 3 Table
kind = "lookup"
den = 1
own = 1
other = 0
first = 0
opening = [1]
table = [1, 2]

Plug 1 0 0 0 Tit For Tat [] [] []
kind = "plug"
plug = "Tit For Tat"

MissingKey Entry 3 Plug
kind = "plug"
den = 1

WrongType Entry 3 Plug
kind = "plug"
plug = true

UnknownPlug(3)
kind = "plug"
plug = "tit for tat"

UnknownPlug(3)
kind = "plug"
plug = "|"
"#;

fn file_text(alloc: Global, machine: &MachineFile) -> Result<String, Fail> {
    let file = machine.file.text();
    Ok(format!(in alloc; "file {file} {} {:?}", machine.start, machine.opening)?)
}

// What the third entry of a lab is, as a line.
fn answer(alloc: Global, entry: &str) -> Result<String, Fail> {
    let Some(name) = Name::read(b"Tit For Tat") else {
        return Ok(String::from_str(alloc, "no name")?);
    };
    let mut notes = Vec::new(alloc);
    notes.push(PlugNote {
        name,
        rows: 2,
        den: 1,
        sure: true,
    })?;
    let table = toml::table_from_str(alloc, entry).map_err(|_| "no table")?;
    match read_sheet(alloc, &table, 3, &notes) {
        Ok(Draft::Ready(sheet)) => sheet_text(alloc, &sheet),
        Ok(Draft::FromFile(machine)) => file_text(alloc, &machine),
        Err(error) => error_text(alloc, &error),
    }
}

#[test]
fn reads_entries(rt: HostRuntime) -> Result<(), Fail> {
    for case in CASES.split("\n\n") {
        let (want, entry) = case.split_once('\n').unwrap_or((case, ""));
        let found = answer(rt.alloc(), entry)?;
        assert_eq!(rt; found.as_str(), want, "at {entry}");
    }
    Ok(())
}
