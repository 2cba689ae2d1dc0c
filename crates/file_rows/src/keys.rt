//! Keys of one table against values worked out by hand.
use lab_keys::{
    array_at, optional_pairs_at, optional_table_at, pair_of, signed_at, table_at, text_at,
    truth_at, whole_at, wholes_at,
};
use lab_ports::{FileError, KeyName, Place, Refusal, TableName};
use std::test::Fail;

fn place(key: KeyName) -> Place {
    Place {
        table: TableName::Entry,
        entry: 7,
        key,
    }
}

fn missing<T>(key: KeyName) -> Result<T, Refusal> {
    Err(Refusal::MissingKey(place(key)))
}

fn wrong<T>(key: KeyName) -> Result<T, Refusal> {
    Err(Refusal::WrongType(place(key)))
}

fn out<T>(key: KeyName) -> Result<T, Refusal> {
    Err(Refusal::OutOfRange(place(key)))
}

const TEXT: &str = r#"
den = 1000
start = 0
turns = 1001
own = -1
other = 1.0
first = 1979-05-27
kind = "plug"
self_play = true
opening = [1, 0]
weights = [0, 1, 0x10, 1_6]
table = [17, 1.5]
rows = [0, -1]
slices = []
game = { r = 3 }
noise = "none"
edges = [["a", "b"], ["c", "c"]]
pairs = [["a"], ["b", 7]]
left = [["a", "b", "c"]]
right = [["a"], "c"]
"#;

// The numbers, or the refusal; `None` without memory.
fn told(found: Result<Vec<u32>, FileError>) -> Result<Vec<u32>, Option<Refusal>> {
    match found {
        Ok(numbers) => Ok(numbers),
        Err(FileError::Refused(refusal)) => Err(Some(refusal)),
        Err(FileError::NoMemory) => Err(None),
    }
}

#[test]
fn reads_keys(rt: HostRuntime) -> Result<(), Fail> {
    let tree = toml::table_from_str(rt.alloc(), TEXT).map_err(|_| "no table")?;
    for (key, want) in [
        (KeyName::Den, Ok(1000)),
        (KeyName::Start, out(KeyName::Start)),
        (KeyName::Turns, out(KeyName::Turns)),
        (KeyName::Own, out(KeyName::Own)),
        (KeyName::Other, wrong(KeyName::Other)),
        (KeyName::First, wrong(KeyName::First)),
        (KeyName::Kind, wrong(KeyName::Kind)),
        (KeyName::SelfPlay, wrong(KeyName::SelfPlay)),
        (KeyName::Opening, wrong(KeyName::Opening)),
        (KeyName::Plug, missing(KeyName::Plug)),
    ] {
        assert_eq!(rt; whole_at(&tree, place(key), 1, 1000), want, "at {key:?}");
    }
    for (low, high, want) in [
        (-1, 0, Ok(-1)),
        (-9, -1, Ok(-1)),
        (0, 9, out(KeyName::Own)),
        (-9, -2, out(KeyName::Own)),
    ] {
        assert_eq!(rt;
            signed_at(&tree, place(KeyName::Own), low, high),
            want,
            "from {low}"
        );
    }
    assert_eq!(rt; text_at(&tree, place(KeyName::Kind)), Ok("plug"));
    assert_eq!(rt;
        text_at(&tree, place(KeyName::First)),
        wrong(KeyName::First)
    );
    assert_eq!(rt; truth_at(&tree, place(KeyName::SelfPlay), false), Ok(true));
    assert_eq!(rt; truth_at(&tree, place(KeyName::Plug), true), Ok(true));
    assert_eq!(rt;
        truth_at(&tree, place(KeyName::Den), false),
        wrong(KeyName::Den)
    );
    assert!(rt; array_at(&tree, place(KeyName::Slices)).is_ok());
    assert!(rt; table_at(&tree, place(KeyName::Game)).is_ok());
    assert!(rt; optional_table_at(&tree, place(KeyName::Noise)).is_err());
    assert!(rt; optional_table_at(&tree, place(KeyName::Best)).is_ok());
    Ok(())
}

#[test]
fn reads_lists(rt: HostRuntime) -> Result<(), Fail> {
    let tree = toml::table_from_str(rt.alloc(), TEXT).map_err(|_| "no table")?;
    let found = told(wholes_at(rt.alloc(), &tree, place(KeyName::Weights), 4, 16));
    assert!(rt; found.is_ok_and(|numbers| numbers.as_slice() == [0, 1, 16, 16].as_slice()));
    for (key, count, want) in [
        (
            KeyName::Weights,
            3,
            Refusal::OutOfRange(place(KeyName::Weights)),
        ),
        (
            KeyName::Weights,
            5,
            Refusal::OutOfRange(place(KeyName::Weights)),
        ),
        (KeyName::Rows, 2, Refusal::OutOfRange(place(KeyName::Rows))),
        (KeyName::Table, 3, Refusal::WrongType(place(KeyName::Table))),
        (KeyName::Kind, 4, Refusal::WrongType(place(KeyName::Kind))),
        (KeyName::Plug, 0, Refusal::MissingKey(place(KeyName::Plug))),
    ] {
        let found = told(wholes_at(rt.alloc(), &tree, place(key), count, 15));
        assert!(rt; found.is_err_and(|error| error == Some(want)), "at {key:?}");
    }
    Ok(())
}

#[test]
fn reads_pairs(rt: HostRuntime) -> Result<(), Fail> {
    let tree = toml::table_from_str(rt.alloc(), TEXT).map_err(|_| "no table")?;
    let edges = place(KeyName::Edges);
    let Ok(Some(found)) = optional_pairs_at(&tree, edges) else {
        return Err(Fail::from("no pairs"));
    };
    let mut pairs = Vec::new(rt.alloc());
    for value in found {
        pairs.push(pair_of(value, edges))?;
    }
    assert_eq!(rt;
        pairs.as_slice(),
        [Ok(("a", "b")), Ok(("c", "c"))].as_slice()
    );
    for (key, want) in [
        (KeyName::Slices, Ok(Some(0))),
        (KeyName::Own, wrong(KeyName::Own)),
        (KeyName::Pairs, wrong(KeyName::Pairs)),
        (KeyName::Left, out(KeyName::Left)),
        (KeyName::Right, wrong(KeyName::Right)),
        (KeyName::Plug, Ok(None)),
    ] {
        let got = match optional_pairs_at(&tree, place(key)) {
            Ok(Some(found)) => Ok(Some(found.len())),
            Ok(None) => Ok(None),
            Err(refusal) => Err(refusal),
        };
        assert_eq!(rt; got, want, "at {key:?}");
    }
    Ok(())
}
