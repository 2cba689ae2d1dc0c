//! The largest report of a tournament, read and written, at once and in pieces.
ghost use Rattle.std.specs.Prelude.{◌<◌};

use crate::pieces::check_pieces;
use crate::shared::{check_text, read};
use lab_report::Body;
use std::alloc::Global;
use std::fmt::Write;
use std::test::Fail;

// The matches of an entry, of one turn each: it wins against each entry behind it.
fn push_matches(text: &mut String, left: u32) -> Result<(), Fail>
    requires { left < 64 }
{
    write!(
        text,
        "match|e{left}|e{left}|1|3.000000000000|3.000000000000|level|sure|1|1|1|0|0|0\n"
    )?;
    for right in left + 1..64 {
        write!(
            text,
            "match|e{left}|e{right}|1|5.000000000000|0.000000000000|left|sure|0|1|0|0|1|0\n"
        )?;
    }
    Ok(())
}

// A tournament of 64 entries, each of which meets each.
fn largest(alloc: Global) -> Result<String, Fail> {
    let mut text = String::new(alloc);
    text.push_str("axlab|1|tournament\ngame|3|0|5|1|dilemma|yes\nnoise|0|1\n")?;
    for left in 0..64u32 {
        push_matches(&mut text, left)?;
    }
    for place in 0..64u32 {
        let wins = 63 - place;
        let points = 5 * wins + 3;
        let rank = place + 1;
        write!(
            text,
            "entry|e{place}|{points}.000000000000|{rank}|{wins}|0\n"
        )?;
    }
    text.push_str("end\n")?;
    Ok(text)
}

// Whether two bodies are one largest tournament.
fn same_tables(one: &Body, other: &Body) -> bool {
    match (one, other) {
        (
            Body::Tournament {
                matches,
                who,
                entries,
            },
            Body::Tournament {
                matches: other_matches,
                who: other_who,
                entries: other_entries,
            },
        ) => {
            matches.as_slice().len() == 2080
                && matches.as_slice() == other_matches.as_slice()
                && who.as_slice() == other_who.as_slice()
                && entries.as_slice() == other_entries.as_slice()
        }
        _ => false,
    }
}

#[test]
fn the_largest_goes_both_ways(rt: HostRuntime) -> Result<(), Fail> {
    let text = largest(rt.alloc())?;
    let report = read(rt.alloc(), text.as_bytes())?;
    check_text(rt.alloc(), &report, text.as_str())?;
    check_pieces(rt.alloc(), &report, text.as_str())?;
    let again = read(rt.alloc(), text.as_bytes())?;
    if same_tables(&report.body, &again.body) {
        Ok(())
    } else {
        Err(Fail::from("another table"))
    }
}
