//! Where the program stops: how often it reads files before it refuses, and what it does when a port fails.
use crate::call::{Around, ECHO, calm, run};
use crate::commands::{FILED, FILED_TWICE};
use axlab_core::Status;
use std::test::Fail;

// A machine's file without its last row.
const LACKING: &str = "state,heard,next,play\n0,C,0,C\n";

// The words, the lab, a part of it and what stands in its place, the machine's file, the number of the status,
// what is told behind `axlab: `, and how often the library is read. Files are read in the order of entries,
// until one is refused.
const STOPS: [(&str, &str, (&str, &str), &str, u8, &str, u32); 8] = [
    (
        "rota lab",
        FILED,
        ("", ""),
        ECHO,
        4,
        "refused 23 NotBuilt",
        0,
    ),
    (
        "resume lab rows",
        FILED,
        ("", ""),
        ECHO,
        4,
        "refused 23 NotBuilt",
        0,
    ),
    ("match other", FILED, ("", ""), ECHO, 3, "read fault", 1),
    (
        "match lab",
        FILED,
        ("= 1", "= 3"),
        ECHO,
        4,
        "refused 3 Version",
        1,
    ),
    (
        "match lab",
        FILED,
        ("[match]", "[rota]"),
        ECHO,
        4,
        "refused 23 NotBuilt",
        1,
    ),
    (
        "match lab",
        FILED,
        ("[match]", "[spare]"),
        ECHO,
        4,
        "refused 13 NoJob",
        2,
    ),
    (
        "match lab",
        FILED_TWICE,
        ("", ""),
        LACKING,
        4,
        "refused 10 BadRows entry 1 row 2",
        2,
    ),
    (
        "match lab",
        FILED_TWICE,
        ("machine.csv", "none"),
        ECHO,
        3,
        "read fault",
        2,
    ),
];

#[test]
fn stops_at_the_first_fault(rt: HostRuntime) -> Result<(), Fail> {
    let alloc = rt.alloc();
    for (words, lab, (old, new), machine, number, short, calls) in STOPS {
        let lab = if old.is_empty() {
            String::from_str(alloc, lab)?
        } else {
            lab.replace(alloc, old, new)?
        };
        let around = Around {
            machine,
            ..calm(lab.as_bytes())
        };
        let ran = run(alloc, words, around)?;
        let told = format!(in alloc; "axlab: {short}\n")?;
        assert_eq!(rt; ran.status.number(), number, "{words} {new}");
        assert_eq!(rt; std::str::from_utf8(&ran.err)?, told.as_str());
        assert_eq!(rt; ran.out.len(), 0);
        assert_eq!(rt; ran.calls, calls, "{words} {new}");
    }
    Ok(())
}

#[test]
fn tells_its_usage(rt: HostRuntime) -> Result<(), Fail> {
    let ran = run(rt.alloc(), "match", calm(FILED.as_bytes()))?;
    assert_eq!(rt; ran.status, Status::Usage);
    assert!(rt; ran.err.starts_with(b"usage: axlab COMMAND LAB\n"));
    assert_eq!(rt; (ran.out.len(), ran.calls, ran.advances), (0, 0, 0));
    Ok(())
}

#[test]
fn stops_where_a_read_fails(rt: HostRuntime) -> Result<(), Fail> {
    for failing_read in [1, 2] {
        let around = Around {
            failing_read,
            machine: ECHO,
            ..calm(FILED.as_bytes())
        };
        let ran = run(rt.alloc(), "match lab", around)?;
        assert_eq!(rt; ran.status, Status::ReadFault);
        assert_eq!(rt; ran.err.as_slice(), b"axlab: read fault\n".as_slice());
        assert_eq!(rt; ran.out.len(), 0);
        assert_eq!(rt; ran.calls, failing_read);
    }
    Ok(())
}

#[test]
fn stops_where_a_write_fails(rt: HostRuntime) -> Result<(), Fail> {
    let around = Around {
        machine: ECHO,
        room: 20,
        ..calm(FILED.as_bytes())
    };
    let ran = run(rt.alloc(), "match lab", around)?;
    assert_eq!(rt; ran.status, Status::WriteFault);
    assert_eq!(rt; ran.out.as_slice(), b"axlab|1|match\ngame|3".as_slice());
    assert_eq!(rt; ran.err.as_slice(), b"axlab: write fault\n".as_slice());
    let failing = Around {
        failing_write: 1,
        ..around
    };
    let ran = run(rt.alloc(), "match lab", failing)?;
    assert_eq!(rt; ran.status, Status::WriteFault);
    assert_eq!(rt; ran.out.len(), 0);
    Ok(())
}
