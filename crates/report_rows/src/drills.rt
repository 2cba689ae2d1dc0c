//! Reports of drills against texts that were worked out by hand.
ghost use Rattle.std.specs.Prelude.{IfOk};
ghost use Rattle.report_rules.specs.Valid.{IsValid};

use crate::pieces::check_pieces;
use crate::shared::{changed, check_text, read, refused_line};
use history_model::Name;
use lab_report::{Body, Report};
use report_making::drill_report;
use std::alloc::Global;
use std::fmt::Write;
use std::test::Fail;

// One name comes twice.
const DRILL: [&str; 7] = [
    "axlab|1|drill\n",
    "drill|18446744073709551615|64|1000000000\n",
    "first|d55|189876529801.000000000000\n",
    "first|d03|0.000000000001\n",
    "first|d55|10000000000000000000000000.000000000000\n",
    "total|9046445515680.500000000000\n",
    "end\n",
];

// The greatest total.
const MOST: i128 = 10_000_000_000_000_000_000_000_000_000_000_000_000;

// The first total, and the sum of all.
const TOTAL: i128 = 189_876_529_801_000_000_000_000;

const SUM: i128 = 9_046_445_515_680_500_000_000_000;

// Lines in place of one, and the line that is refused then; 0 where none is.
const CHANGED: [(usize, &str, u32); 37] = [
    (0, "", 1),
    (0, "axlab|2|drill\n", 1),
    (0, "axlab|1|drill\ngame|3|0|5|1|dilemma|yes\n", 2),
    (0, "axlab|1|drill\nnoise|0|1\n", 2),
    (0, "axlab|1|drill\naxlab|1|drill\n", 2),
    (0, "axlab|1|match\n", 2),
    (0, "axlab|1|tournament\n", 2),
    (1, "", 2),
    (1, "drill|0|64|1000000000\n", 0),
    (1, "drill|07|64|1000000000\n", 2),
    (1, "drill|18446744073709551616|64|1000000000\n", 2),
    (1, "drill|-7|64|1000000000\n", 2),
    (1, "drill|7|63|1000000000\n", 2),
    (1, "drill|7|64|1000000001\n", 2),
    (1, "drill|7|64\n", 2),
    (1, "first|d01|1.000000000000\ndrill|7|64|1000000000\n", 2),
    (1, "drill|7|64|1000000000\ndrill|7|64|1000000000\n", 3),
    (2, "", 0),
    (2, "first|d 5|1.000000000000\n", 0),
    (2, "first| d5|1.000000000000\n", 3),
    (
        2,
        "first|abcdefghijklmnopqrstuvwxyz0123456|1.000000000000\n",
        3,
    ),
    (2, "first|d55|01.000000000000\n", 3),
    (2, "first|d55|1.000000000000..2.000000000000\n", 3),
    (2, "entry|d55|0.000000000000|1|0|0\n", 3),
    (3, "first|d03|10000000000000000000000000.000000000001\n", 4),
    (5, "", 6),
    (5, "total|0.000000000000\n", 0),
    (5, "total|1.00000000000\n", 6),
    (5, "total|10000000000000000000000000.000000000000\n", 0),
    (5, "total|10000000000000000000000000.000000000001\n", 6),
    (5, "total|1.000000000000..2.000000000000\n", 6),
    (5, "total|1.000000000000\ntotal|1.000000000000\n", 7),
    (5, "total|1.000000000000\nfirst|d01|1.000000000000\n", 7),
    (6, "", 7),
    (6, "end", 7),
    (6, "end\nend\n", 8),
    (6, "end\nx", 8),
];

fn machine_names() -> Result<[Name; 3], Fail> {
    Ok([
        Name::read(b"d00").ok_or("no name")?,
        Name::read(b"d03").ok_or("no name")?,
        Name::read(b"d55").ok_or("no name")?,
    ])
}

fn made(alloc: Global) -> Result<Report, Fail>
    ensures { IfOk result IsValid }
{
    let names = machine_names()?;
    let first = [(2, TOTAL), (1, 1), (2, MOST)];
    Ok(drill_report(alloc, u64::MAX, &names, &first, SUM)?)
}

#[test]
fn makes_drills(rt: HostRuntime) -> Result<(), Fail> {
    let report = made(rt.alloc())?;
    let text = changed(rt.alloc(), &DRILL, 7, "")?;
    check_text(rt.alloc(), &report, text.as_str())
}

// Whether a report says what the text of the drill does.
fn is_drill(report: &Report) -> bool {
    match &report.body {
        Body::Drill { number, first, sum } => {
            report.names.as_slice().len() == 2
                && *number == u64::MAX
                && first.as_slice() == [(0, TOTAL), (1, 1), (0, MOST)].as_slice()
                && *sum == SUM
        }
        _ => false,
    }
}

#[test]
fn drills_go_both_ways(rt: HostRuntime) -> Result<(), Fail> {
    let text = changed(rt.alloc(), &DRILL, 7, "")?;
    let report = read(rt.alloc(), text.as_bytes())?;
    if !is_drill(&report) {
        return Err(Fail::from("another drill"));
    }
    check_text(rt.alloc(), &report, text.as_str())
}

#[test]
fn refuses_the_first_bad_line(rt: HostRuntime) -> Result<(), Fail> {
    for (place, new, number) in CHANGED {
        let text = changed(rt.alloc(), &DRILL, place, new)?;
        let refused = refused_line(rt.alloc(), text.as_str())?;
        assert_eq!(rt; refused, number, "at {new}");
    }
    Ok(())
}

// A drill with so many machines, whose lines are long.
fn crowd(alloc: Global, machines: u32) -> Result<String, Fail> {
    let mut text = String::new(alloc);
    text.push_str("axlab|1|drill\ndrill|7|64|1000000000\n")?;
    for place in 0..machines {
        write!(
            text,
            "first|machine of a long name, place {place}|9999999999999999999999999.000000000000\n"
        )?;
    }
    text.push_str("total|1.000000000000\nend\n")?;
    Ok(text)
}

#[test]
fn takes_64_machines(rt: HostRuntime) -> Result<(), Fail> {
    let text = crowd(rt.alloc(), 64)?;
    let report = read(rt.alloc(), text.as_bytes())?;
    check_text(rt.alloc(), &report, text.as_str())?;
    check_pieces(rt.alloc(), &report, text.as_str())
}

#[test]
fn refuses_the_65th_machine(rt: HostRuntime) -> Result<(), Fail> {
    let text = crowd(rt.alloc(), 65)?;
    if refused_line(rt.alloc(), text.as_str())? == 67 {
        Ok(())
    } else {
        Err(Fail::from("another line"))
    }
}
