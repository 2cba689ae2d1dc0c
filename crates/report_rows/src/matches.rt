//! Reports of matches against texts that were worked out by hand.
ghost use Rattle.std.specs.Prelude.{IfOk};
ghost use Rattle.report_rules.specs.Valid.{IsValid};

use crate::shared::{changed, check_text, read, refused_line};
use fixed_span::Span;
use history_model::{Game, Name, Noise, Tally};
use lab_report::{Body, Head, Names, Noises, Report};
use report_making::match_report;
use result_lines::MatchLine;
use std::alloc::Global;
use std::test::Fail;

const SURE: [&str; 5] = [
    "axlab|1|match\n",
    "game|3|0|5|1|dilemma|yes\n",
    "noise|0|1\n",
    "match|Tit for Tat|Random|6|12.000000000000|17.000000000000|right|sure|4|3|2|2|1|1\n",
    "end\n",
];

const MIXED: [&str; 5] = [
    "axlab|1|match\n",
    "game|3|1|5|1|dilemma|no\n",
    "noise|1|100\n",
    "match|A|A|250|500.000000000001..500.000000000002|500.000000000002..501.000000000000|undecided|mixed\n",
    "end\n",
];

// The payoffs of version 2 may be below 0: here the offset is 1. Each player has a noise of its own.
const LOW: [&str; 7] = [
    "axlab|2|match\n",
    "game|2|-1|3|0|dilemma|yes\n",
    "noise|0|1\n",
    "own|Tit for Tat|0|1\n",
    "own|Random|1|2\n",
    "match|Tit for Tat|Random|6|5.000000000000|9.000000000000|right|sure|4|3|2|2|1|1\n",
    "end\n",
];

// The same with mixed scores below 0, of one player with itself.
const BELOW: [&str; 6] = [
    "axlab|2|match\n",
    "game|0|-999999|1|-1|dilemma|yes\n",
    "noise|1|100\n",
    "own|A|500|1000\n",
    "match|A|A|250|-500.000000000002..-500.000000000001|-500.000000000001..0.000000000001|undecided|mixed\n",
    "end\n",
];

// Lines in place of one of that text, and the line that is refused then; 0 where none is.
const CHANGED_LOW: [(usize, &str, u32); 30] = [
    (0, "axlab|1|match\n", 2),
    (0, "axlab|3|match\n", 1),
    (0, "axlab|02|match\n", 1),
    (1, "game|3|0|4|1|dilemma|yes\n", 6),
    (1, "game|2|-1|3|-0|dilemma|yes\n", 2),
    (1, "game|2|-1|3|0|dilemma|no\n", 2),
    (1, "game|2|-1|1000000|0|dilemma|no\n", 2),
    (1, "game|2|-1000001|3|0|dilemma|no\n", 2),
    (2, "noise|0|1\nnoise|0|1\n", 4),
    (2, "own|Tit for Tat|0|1\n", 3),
    (2, "own|A|0|1\nnoise|0|1\n", 3),
    (3, "", 5),
    (3, "own|Random|1|2\n", 5),
    (3, "own|Tit for Tat|1|1\n", 4),
    (3, "own|Tit for Tat|0|0\n", 4),
    (3, "own|Tit for Tat|0|1001\n", 4),
    (3, "own| Tit|0|1\n", 4),
    (3, "own|Tit for Tat|0\n", 4),
    (3, "own|Tit for Tat|0|1|\n", 4),
    (3, "own|Tit for Tat|0|1\nown|Tit for Tat|0|1\n", 5),
    (3, "own|Tit for Tat|4|8\n", 0),
    (4, "", 5),
    (4, "own|Rando|1|2\n", 6),
    (4, "own|Random|1|2\nown|Other|1|2\n", 8),
    (4, "own|Random|1|2\nown|Random|1|2\n", 6),
    (
        5,
        "match|Tit for Tat|Random|6|-5.000000000000|9.000000000000|right|sure|4|3|2|2|1|1\n",
        6,
    ),
    (
        5,
        "match|Tit for Tat|Random|6|12.000000000000|17.000000000000|right|sure|4|3|2|2|1|1\n",
        6,
    ),
    (
        5,
        "match|Tit for Tat|Random|6|-0.000000000000|9.000000000000|right|mixed\n",
        6,
    ),
    (
        5,
        "match|Tit for Tat|Tit for Tat|6|-5.000000000000|9.000000000000|right|mixed\n",
        7,
    ),
    (
        5,
        "match|Tit for Tat|Random|6|-1000000000000000000000.000000000000..-0.000000000001|9.000000000000|right|mixed\n",
        0,
    ),
];

// Lines in place of one of the first text, and the line that is refused then.
const CHANGED: [(usize, &str, u32); 22] = [
    (0, "axlab|2|match\n", 4),
    (0, "axlab|3|match\n", 1),
    (2, "noise|0|1\nown|Tit for Tat|0|1\n", 4),
    (
        3,
        "match|A|B|6|-1.000000000000|17.000000000000|right|mixed\n",
        4,
    ),
    (0, "", 1),
    (1, "game|03|0|5|1|dilemma|yes\n", 2),
    (1, "game|3|0|5|1|dilemma|no\n", 2),
    (1, "game|3|0|6|1|dilemma|no\n", 4),
    (1, "drill|7|64|1000000000\n", 2),
    (2, "noise|1|1\n", 3),
    (2, "noise|0|1\r\n", 3),
    (
        3,
        "match|A|B|6|12.000000000000|17.000000000000|left|sure|4|3|2|2|1|1\n",
        4,
    ),
    (
        3,
        "match|A|B|6|12.000000000000|17.000000000000|right|sure|4|4|2|2|1|1\n",
        4,
    ),
    (
        3,
        "match|A|B|7|12.000000000000|17.000000000000|right|sure|4|3|2|2|1|1\n",
        4,
    ),
    (
        3,
        "match|A|B|6|13.000000000000|17.000000000000|right|sure|4|3|2|2|1|1\n",
        4,
    ),
    (
        3,
        "match|A|B|6|2.000000000000|7.000000000000|right|mixed\nmatch|A|B|6|2.000000000000|7.000000000000|right|mixed\n",
        5,
    ),
    (3, "total|1.000000000000\n", 4),
    (3, "", 4),
    (4, "", 5),
    (4, "end", 5),
    (4, "end\nend\n", 6),
    (4, "end\nx", 6),
];

fn made(alloc: Global) -> Result<Report, Fail>
    ensures { IfOk result IsValid }
{
    let name = Name::read(b"Tit for Tat").ok_or("no name")?;
    let other = Name::read(b"Random").ok_or("no name")?;
    let line = MatchLine {
        left: 7,
        right: 3,
        turns: 6,
        left_score: Span::point(12_000_000_000_000),
        right_score: Span::point(17_000_000_000_000),
        tally: Some(Tally {
            cc: 2,
            cd: 2,
            dc: 1,
            dd: 1,
        }),
    };
    let head = Head {
        version: 1,
        offset: 0,
        game: Game {
            r: 3,
            s: 0,
            t: 5,
            p: 1,
        },
        noise: Noise { n: 0, e: 1 },
    };
    let none = head.noise;
    Ok(match_report(alloc, &head, &name, &other, &none, &none, &line)?)
}

// The report of the text with payoffs below 0.
fn made_low(alloc: Global) -> Result<Report, Fail>
    ensures { IfOk result IsValid }
{
    let name = Name::read(b"Tit for Tat").ok_or("no name")?;
    let other = Name::read(b"Random").ok_or("no name")?;
    let line = MatchLine {
        left: 0,
        right: 1,
        turns: 6,
        left_score: Span::point(5_000_000_000_000),
        right_score: Span::point(9_000_000_000_000),
        tally: Some(Tally {
            cc: 2,
            cd: 2,
            dc: 1,
            dd: 1,
        }),
    };
    let head = Head {
        version: 2,
        offset: 1,
        game: Game {
            r: 3,
            s: 0,
            t: 4,
            p: 1,
        },
        noise: Noise { n: 0, e: 1 },
    };
    let own = Noise { n: 1, e: 2 };
    Ok(match_report(alloc, &head, &name, &other, &head.noise, &own, &line)?)
}

#[test]
fn writes_matches(rt: HostRuntime) -> Result<(), Fail> {
    let report = made(rt.alloc())?;
    let text = changed(rt.alloc(), &SURE, 5, "")?;
    check_text(rt.alloc(), &report, text.as_str())?;
    let report = made_low(rt.alloc())?;
    let text = changed(rt.alloc(), &LOW, 7, "")?;
    check_text(rt.alloc(), &report, text.as_str())
}

#[test]
fn lists_go_both_ways(rt: HostRuntime) -> Result<(), Fail> {
    let name = Name::read(b"A").ok_or("no name")?;
    let names = Names::from_vec(vec![in rt.alloc(); name]?);
    assert_eq!(rt; names.as_slice()[0].byte(0), b'A');
    assert_eq!(rt; names.into_vec().len(), 1);
    let noises = Noises::from_vec(vec![in rt.alloc(); Noise { n: 1, e: 9 }]?);
    assert_eq!(rt; noises.as_slice()[0].denominator(), 9);
    assert_eq!(rt; noises.into_vec().len(), 1);
    Ok(())
}

// Whether a report is of a match of its first name.
fn shows(report: &Report, names: usize, right: u32, left_score: Span, sure: bool) -> bool {
    match &report.body {
        Body::Match { line } => {
            report.names.as_slice().len() == names
                && (line.left, line.right) == (0, right)
                && line.left_score == left_score
                && line.tally.is_some() == sure
        }
        _ => false,
    }
}

#[test]
fn reads_what_it_writes(rt: HostRuntime) -> Result<(), Fail> {
    let half = 500_000_000_000_000;
    let mixed = Span {
        lo: half + 1,
        hi: half + 2,
    };
    for (lines, names, right, left_score, sure) in [
        (&SURE, 2, 1, Span::point(12_000_000_000_000), true),
        (&MIXED, 1, 0, mixed, false),
    ] {
        let text = changed(rt.alloc(), lines, 5, "")?;
        let report = read(rt.alloc(), text.as_bytes())?;
        if !shows(&report, names, right, left_score, sure) {
            return Err(Fail::from("another match"));
        }
        check_text(rt.alloc(), &report, text.as_str())?;
    }
    Ok(())
}

#[test]
fn reads_scores_below_zero(rt: HostRuntime) -> Result<(), Fail> {
    let text = changed(rt.alloc(), &BELOW, 6, "")?;
    let report = read(rt.alloc(), text.as_bytes())?;
    let score = Span {
        lo: -500_000_000_000_002,
        hi: -500_000_000_000_001,
    };
    let noises = report.noises.as_slice();
    assert_eq!(rt; noises.len(), 1);
    assert_eq!(rt; noises[0].denominator(), 1000);
    assert_eq!(rt; (report.version, report.offset), (2, 999_999));
    assert_eq!(rt; report.game.t, 1_000_000);
    if !shows(&report, 1, 0, score, false) {
        return Err(Fail::from("another match"));
    }
    check_text(rt.alloc(), &report, text.as_str())
}

#[test]
fn refuses_the_first_bad_line(rt: HostRuntime) -> Result<(), Fail> {
    for (place, new, number) in CHANGED {
        let text = changed(rt.alloc(), &SURE, place, new)?;
        let refused = refused_line(rt.alloc(), text.as_str())?;
        assert_eq!(rt; refused, number, "at {new}");
    }
    for (place, new, number) in CHANGED_LOW {
        let text = changed(rt.alloc(), &LOW, place, new)?;
        let refused = refused_line(rt.alloc(), text.as_str())?;
        assert_eq!(rt; refused, number, "at {new}");
    }
    Ok(())
}
