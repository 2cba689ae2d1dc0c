//! Labs against answers that were worked out by hand from what a lab is. A case changes parts of one
//! lab: `part -> what stands in its place`, and maybe ` and ` a further part, ` => ` the answer. In
//! the parts `; ` is a line break, and `?` the table of a tournament behind that of the match.
use crate::told::error_text;
use history_model::{Name, Noise};
use lab_file::{Command, Entry, Lab, TournamentJob, read_lab};
use player_core::PlugNote;
use std::alloc::Global;
use std::fmt::Write;
use std::test::Fail;
use strategy_file::Draft;

const LAB: &str = r#"version = 1
[[entry]]
name = "tft"
kind = "memory-one"
den = 1
opening = 1
weights = [1, 0, 1, 0]
[[entry]]
name = "sly"
kind = "machine"
start = 7
opening = "D"
file = "sly.csv"
[[entry]]
name = "wide"
kind = "lookup"
den = 3
own = 1
other = 0
first = 0
opening = [3]
table = [0, 3]
[[entry]]
name = "fox"
kind = "plug"
plug = "grim"
[match]
left = "tft"
right = "fox"
turns = 5
"#;

const TABLE: &str = "turns = 5 -> turns = 5; [tournament]; ";

// In the answers `same` is that to the lab as it stands, `usual` the version, the offset, the game and
// the noise of that one, and `&` its entries, which are `<` and two more.
const WORDS: [(&str, &str); 4] = [
    ("same", "usual: &: 0 3 5"),
    ("usual", "1 0 [3, 0, 5, 1] 0/1"),
    (
        "&",
        "<, wide Lookup [3]/3 [0, 3] [] -, fox Plug []/1 [] [] grim",
    ),
    (
        "<",
        "tft MemoryOne [1]/1 [1, 0, 1, 0] [] -, sly sly.csv 7 D",
    ),
];

const CASES: &str = r#"version = 1 -> # => MissingKey Top 0 Version
version = 1 -> version = "1" => WrongType Top 0 Version
version = 1 -> version = 3; game = 1 => Version
version = 1 -> version = 2; game = { r = 2, s = -1, t = 3, p = 0 } => 2 1 [3, 0, 4, 1] 0/1: &: 0 3 5
version = 1 -> version = 2; game = { r = -7, s = 999993, t = 0, p = 0 } => 2 7 [0, 1000000, 7, 7] 0/1: &: 0 3 5
version = 1 -> version = 2; game = { r = -7, s = 999994, t = 0, p = 0 } => OutOfRange Game 0 P
version = 1 -> version = 2; game = { r = -1000000, s = -1000000, t = -1000000, p = -1000001 } => OutOfRange Game 0 P
version = 1 -> version = 2; game = { r = 7, s = 8, t = 1000000, p = 9 } => 2 0 [7, 8, 1000000, 9] 0/1: &: 0 3 5
version = 1 -> version = 2 and plug = "grim" -> plug = "grim"; noise = { e = 9, n = 4 } => 2 0 [3, 0, 5, 1] 0/1: <, wide Lookup [3]/3 [0, 3] [] -, fox Plug []/1 [] [] grim 4/9: 0 3 5
version = 1 -> version = 2; noise = { e = 8, n = 1 } and plug = "grim" -> plug = "grim"; noise = { e = 1, n = 0 } => 2 0 [3, 0, 5, 1] 1/8: <, wide Lookup [3]/3 [0, 3] [] -, fox Plug []/1 [] [] grim 0/1: 0 3 5
version = 1 -> version = 2 and plug = "grim" -> plug = "Grim"; noise = 3 => UnknownPlug(4)
version = 1 -> version = 2 and plug = "grim" -> plug = "grim"; noise = 3 => WrongType Entry 4 Noise
version = 1 -> version = 2 and plug = "grim" -> plug = "grim"; noise = { n = 5 } => MissingKey Entry 4 E
version = 1 -> version = 2 and plug = "grim" -> plug = "grim"; noise = { n = 5, e = 9 } => OutOfRange Entry 4 N
plug = "grim" -> plug = "grim"; noise = { n = 4, e = 9 } => same
version = 1 -> version = 1; game = 3; noise = 3 => WrongType Top 0 Game
version = 1 -> version = 1; game = { r = 4, s = 1, t = 1000000, p = 2 } => 1 0 [4, 1, 1000000, 2] 0/1: &: 0 3 5
version = 1 -> version = 1; noise = { n = 1, e = 10 } => 1 0 [3, 0, 5, 1] 1/10: &: 0 3 5
version = 1 -> version = 1; tournament = 3 and [[entry]] -> [[entries]] => MissingKey Top 0 Entry
name = "wide" -> name = "a|b" => BadName(3)
name = "wide" -> name = "01234567890123456789012345678 ab" => usual: <, 01234567890123456789012345678 ab Lookup [3]/3 [0, 3] [] -, fox Plug []/1 [] [] grim: 0 3 5
name = "wide" -> name = "sly" => DoubledName(3)
name = "wide" -> name = "fox" => DoubledName(4)
file = "sly.csv" -> rows = [[7, "D", 7, "D"], [7, "C", 7, "C"]] => usual: tft MemoryOne [1]/1 [1, 0, 1, 0] [] -, sly Machine [0]/1 [1, 0] [0, 0] -, wide Lookup [3]/3 [0, 3] [] -, fox Plug []/1 [] [] grim: 0 3 5
file = "sly.csv" -> rows = [[7, "D", 7, "D"], [7, "C", 7, "E"]] => BadRows(2, 2)
plug = "grim" -> plug = "Grim" and left = "tft" -> left = 7 => UnknownPlug(4)
left = "tft" -> left = "nobody" and right = "fox" -> right = 1 => UnknownEntry Match 0 Left
left = "tft"; right = "fox" -> right = "sly"; left = "wide" => usual: &: 2 1 5
right = "fox" -> right = "grim" and turns = 5 -> turns = 0 => UnknownEntry Match 0 Right
turns = 5 -> turns = 0; [moran] => OutOfRange Match 0 Turns
turns = 5 -> turns = 1_000_000_000_000 => usual: &: 0 3 1000000000000
turns = 5 -> turns = 1000000000001 => OutOfRange Match 0 Turns
[match] -> [matches] => usual: &: no match
[match] -> [[best]]; [match] => NotBuilt
[match] -> [stable.moran]; turns = 0; [Moran]; [match] => same
version = 1 -> version = 2 and turns = 5 -> turns = => Syntax
turns = 5 -> turns = 5; [match] => Syntax
turns = 5 -> turns = 5; x = 9223372036854775808 => Syntax
version = 1 -> version = 1; tournament = 3 => WrongType Top 0 Tournament
?turns = 7 => same, 7 false: (0, 1)(0, 2)(0, 3)(1, 2)(1, 3)(2, 3)
?turns = 7; self_play = true; edges = [] => same, 7 true: (0, 0)(1, 1)(2, 2)(3, 3)
?turns = 7; edges = [["wide", "tft"], ["tft", "fox"]] => same, 7 false 2-0 0-3: (0, 2)(0, 3)
?turns = 7; self_play = true; edges = [["fox", "wide"], ["tft", "sly"]] => same, 7 true 3-2 0-1: (0, 0)(0, 1)(1, 1)(2, 2)(2, 3)(3, 3)
?turns = 7; edges = [["tft", "fox"], ["wide", "tft"], ["fox", "tft"], ["nobody", "fox"]] => DoubledEdge(3)
?turns = 7; edges = [["tft", "fox"], ["tft", "fox"]] => DoubledEdge(2)
?turns = 7; edges = [["sly", "sly"], ["nobody", "fox"]] => DoubledEdge(1)
?turns = 7; edges = [["sly", "nobody"], ["sly", "sly"]] => UnknownEntry Tournament 0 Edges
?turns = 7; edges = [["sly", "nobody"], ["sly"]] => OutOfRange Tournament 0 Edges
?turns = 7; edges = [["sly"], ["sly", 7]] => WrongType Tournament 0 Edges
?turns = 7; self_play = 1; edges = 1 => WrongType Tournament 0 SelfPlay
?turns = 1000000000001; self_play = 1 => OutOfRange Tournament 0 Turns
?turns = 7; [moran] => NotBuilt
turns = 5 -> turns = 0; [tournament] => OutOfRange Match 0 Turns
"#;

// A lab whose match is one of 457 rows with itself, with noise. `*` is 255 weights.
const WIDE: &str =
    r#"version = 1 -> version = 1; noise = { n = 1, e = 100 } and own = 1; other = 0; first = 0; opening = [3]; table = [0, 3] -> own = 4; other = 2; first = 2; opening = [3, 0, 3, 0]; table = [0*] and left = "tft"; right = "fox" -> left = "wide"; right = "wide""#;

// The answers of the limits of a match. `#` is the lab above.
const LIMITS: &str = r##"turns = 5 -> turns = 1_000_000_000_000 => Ok(())
[match] -> [matches] => Err(NoJob)
version = 1 -> version = 1; noise = { n = 0, e = 1000 } and turns = 5 -> turns = 10_001 => Ok(())
version = 1 -> version = 1; noise = { n = 1, e = 1000 } and turns = 5 -> turns = 10_001 => Err(TooManyTurns)
plug = "grim" -> plug = "dice" and turns = 5 -> turns = 10_001 => Err(TooManyTurns)
plug = "grim" -> plug = "dice" and right = "fox" -> right = "sly" and turns = 5 -> turns = 1_000_000 => Ok(())
den = 1; opening = 1; weights = [1, 0, 1, 0] -> den = 2; opening = 1; weights = [2, 0, 0, 2] and turns = 5 -> turns = 10_001 => Err(TooManyTurns)
den = 1; opening = 1; weights = [1, 0, 1, 0] -> den = 3; opening = 0; weights = [3, 0, 0, 1] and turns = 5 -> turns = 10_001 => Err(TooManyTurns)
left = "tft" -> left = "wide" and opening = [3] -> opening = [1] and turns = 5 -> turns = 10_001 => Err(TooManyTurns)
right = "fox" -> right = "wide" and table = [0, 3] -> table = [0, 1] and turns = 5 -> turns = 10_001 => Err(TooManyTurns)
# and turns = 5 -> turns = 143 => Ok(())
# and turns = 5 -> turns = 144 => Err(TooMuchWork)
# and turns = 5 -> turns = 10_001 => Err(TooManyTurns)
"##;

// The same of a tournament. In self-play all pairs of `#` have 212,087 pairs of rows, and those of the
// entries with themselves 208,878.
const TOURNAMENT_LIMITS: &str = r##"turns = 5 -> turns = 7 => Err(NoJob)
?turns = 1_000_000_000_000 => Ok(())
plug = "grim" -> plug = "dice" and ?turns = 10_000 => Ok(())
plug = "grim" -> plug = "dice" and ?turns = 10_001 => Err(TooManyTurns)
plug = "grim" -> plug = "dice" and ?turns = 10_001; edges = [["wide", "tft"]] => Ok(())
plug = "grim" -> plug = "dice" and ?turns = 10_001; edges = []; self_play = true => Err(TooManyTurns)
# and ?turns = 141; self_play = true => Ok(())
# and ?turns = 142; self_play = true => Err(TooMuchWork)
# and ?turns = 143; self_play = true; edges = [] => Ok(())
# and ?turns = 144; self_play = true; edges = [] => Err(TooMuchWork)
# and ?turns = 10_001; self_play = true; edges = [] => Err(TooManyTurns)
"##;

// In turn, the place of an entry, the rows that are read for it, and what comes of it.
const STEPS: &str = r#"1 7,C,9,D; 9,E,7,C => Err(Refused(BadRows(2, 2))): sly sly.csv 7 D
0 7,C,9,D; 9,E,7,C => Ok(()): tft MemoryOne [1]/1 [1, 0, 1, 0] [] -
1 7,C,9,D; 9,D,7,C; 7,D,7,D; 9,C,9,C => Ok(()): sly Machine [0]/1 [0, 0, 1, 1] [1, 0, 1, 0] -
1 0,C,0,C; 0,D,0,D => Ok(()): sly Machine [0]/1 [0, 0, 1, 1] [1, 0, 1, 0] -
"#;

// The notes of a plug that is sure and of one that isn't.
fn notes(alloc: Global) -> Result<Vec<PlugNote>, Fail> {
    let mut notes = Vec::new(alloc);
    for (text, sure) in [("dice", false), ("grim", true)] {
        let name = Name::read(text.as_bytes()).ok_or("no name")?;
        notes.push(PlugNote {
            name,
            rows: 2,
            den: 1,
            sure,
        })?;
    }
    Ok(notes)
}

fn replaced(alloc: Global, text: &str, words: &[(&str, &str)]) -> Result<String, Fail> {
    let mut text = String::from_str(alloc, text)?;
    for (word, meaning) in words {
        text = text.replace(alloc, word, meaning)?;
    }
    Ok(text)
}

// An entry in short, with its noise where it isn't that of the lab.
fn write_entry(text: &mut String, entry: &Entry, noise: Noise) -> Result<(), Fail> {
    match &entry.draft {
        Draft::Ready(sheet) => {
            write!(text, "{} {:?} ", entry.name, sheet.kind)?;
            write!(text, "{:?}/{} ", sheet.opening, sheet.den)?;
            write!(text, "{:?} {:?} {}", sheet.table, sheet.next, sheet.plug)?;
        }
        Draft::FromFile(machine) => {
            let file = machine.file.text();
            write!(text, "{} {file} ", entry.name)?;
            write!(text, "{} {:?}", machine.start, machine.opening)?;
        }
    }
    if entry.noise != noise {
        write!(text, " {}/{}", entry.noise.n, entry.noise.e)?;
    }
    Ok(())
}

// A tournament in short: its keys, and the pairs that are played among four entries.
fn write_tournament(alloc: Global, text: &mut String, job: &TournamentJob) -> Result<(), Fail> {
    write!(text, ", {} {}", job.turns, job.self_play)?;
    if let Some(edges) = &job.edges {
        for edge in edges.as_slice() {
            write!(text, " {}-{}", edge.left, edge.right)?;
        }
    }
    let pairs = job.pairs(alloc, 4).map_err(|_| "no memory")?;
    text.push_str(": ")?;
    for pair in &pairs {
        write!(text, "{pair:?}")?;
    }
    Ok(())
}

// A lab in short.
fn write_lab(text: &mut String, lab: &Lab) -> Result<(), Fail> {
    let game = [lab.game.r, lab.game.s, lab.game.t, lab.game.p];
    write!(text, "{} {} {game:?} ", lab.version, lab.offset)?;
    write!(text, "{}/{}", lab.noise.n, lab.noise.e)?;
    let mut between = ": ";
    for entry in lab.entries.as_slice() {
        text.push_str(between)?;
        write_entry(text, entry, lab.noise)?;
        between = ", ";
    }
    match lab.jobs.match_job {
        Some(job) => write!(text, ": {} {} {}", job.left, job.right, job.turns)?,
        None => text.push_str(": no match")?,
    }
    Ok(())
}

fn answer(alloc: Global, bytes: &[u8]) -> Result<String, Fail> {
    let mut text = String::new(alloc);
    match read_lab(alloc, bytes, &notes(alloc)?) {
        Ok(lab) => {
            write_lab(&mut text, &lab)?;
            if let Some(job) = &lab.jobs.tournament_job {
                write_tournament(alloc, &mut text, job)?;
            }
        }
        Err(error) => return error_text(alloc, &error),
    }
    Ok(text)
}

// The lab with parts of it changed.
fn changed(alloc: Global, changes: &str) -> Result<String, Fail> {
    let mut text = String::from_str(alloc, LAB)?;
    let changes = replaced(alloc, changes, &[("?", TABLE), ("; ", "\n")])?;
    for change in changes.split(" and ") {
        let (old, new) = change.split_once(" -> ").ok_or("no arrow")?;
        if !text.contains(old) {
            return Err(Fail::from("no such part"));
        }
        text = text.replace(alloc, old, new)?;
    }
    Ok(text)
}

#[test]
fn reads_labs(rt: HostRuntime) -> Result<(), Fail> {
    let alloc = rt.alloc();
    for line in CASES.lines() {
        let (changes, want) = line.split_once(" => ").ok_or("no answer")?;
        let got = answer(alloc, changed(alloc, changes)?.as_bytes())?;
        let want = replaced(alloc, want, &WORDS)?;
        assert_eq!(rt; got.as_str(), want.as_str(), "at {line}");
    }
    Ok(())
}

#[test]
fn attaches_files(rt: HostRuntime) -> Result<(), Fail> {
    let alloc = rt.alloc();
    let mut lab = read_lab(alloc, LAB.as_bytes(), &notes(alloc)?)?;
    for line in STEPS.lines() {
        let (step, want) = line.split_once(" => ").ok_or("no answer")?;
        let (place, rows) = step.split_once(' ').ok_or("no place")?;
        let place = place.parse::<u32>()?;
        if place as usize >= lab.entries.len() {
            return Err(Fail::from("no entry"));
        }
        let rows = rows.replace(alloc, "; ", "\n")?;
        let file = format!(in alloc; "state,heard,next,play\n{rows}\n")?;
        let answer = lab.attach(alloc, place, file.as_bytes());
        let mut got = format!(in alloc; "{answer:?}: ")?;
        if let Some(entry) = lab.entries.as_slice().get(place as usize) {
            write_entry(&mut got, entry, lab.noise)?;
        }
        assert_eq!(rt; got.as_str(), want, "at {line}");
    }
    Ok(())
}

// The answers to the limits of a command.
fn limits(alloc: Global, command: Command, cases: &str) -> Result<String, Fail> {
    let notes = notes(alloc)?;
    let weights = ", 1".repeat(alloc, 255)?;
    let mut text = String::new(alloc);
    for line in cases.lines() {
        let (changes, _) = line.split_once(" => ").ok_or("no answer")?;
        let wide = changes.replace(alloc, "#", WIDE)?;
        let bytes = changed(alloc, wide.as_str())?.replace(alloc, "*", &weights)?;
        let lab = read_lab(alloc, bytes.as_bytes(), &notes)?;
        write!(text, "{changes} => {:?}\n", lab.limits(command, &notes))?;
    }
    Ok(text)
}

#[test]
fn tests_limits(rt: HostRuntime) -> Result<(), Fail> {
    let alloc = rt.alloc();
    for (command, cases) in [
        (Command::Match, LIMITS),
        (Command::Tournament, TOURNAMENT_LIMITS),
        (
            Command::Summary,
            "turns = 5 -> turns = 7 => Err(NotBuilt)\n",
        ),
    ] {
        let got = limits(alloc, command, cases)?;
        assert_eq!(rt; got.as_str(), cases);
    }
    Ok(())
}
