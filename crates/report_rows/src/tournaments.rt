//! The report of a tournament against its text, which was worked out by hand.
ghost use Rattle.std.specs.Prelude.{◌≢◌, IfOk};
ghost use Rattle.std.specs.List.{AllPairs};
ghost use Rattle.report_rules.specs.Valid.{IsValid};
ghost use Rattle.report_making.specs.Made.{AreResults};

use crate::shared::{changed, check_text};
use fixed_span::Span;
use history_model::{Game, Name, Noise};
use lab_report::{Head, Report};
use report_making::tournament_report;
use result_lines::{EntryLine, EntryLines, MatchLine, MatchLines, Rank, Totals};
use std::alloc::Global;
use std::test::Fail;

// The third entry meets the first, and the second none.
const TEXT: [&str; 8] = [
    "axlab|1|tournament\n",
    "game|3|0|5|1|dilemma|yes\n",
    "noise|1|100\n",
    "match|C|A|250|500.000000000001..500.000000000002|499.000000000000|left|mixed\n",
    "entry|A|499.000000000000|2|0|0\n",
    "entry|B|0.000000000000|3|0|0\n",
    "entry|C|500.000000000001..500.000000000002|1|1|0\n",
    "end\n",
];

fn entry_names() -> Result<[Name; 3], Fail>
    ensures { IfOk result (AllPairs (λ a b. a ≢ b)) }
{
    Ok([
        Name::read(b"A").ok_or("no name")?,
        Name::read(b"B").ok_or("no name")?,
        Name::read(b"C").ok_or("no name")?,
    ])
}

fn totals(alloc: Global) -> Result<Totals, Fail>
    ensures { IfOk result (AreResults 3 (record { version = 1; offset = 0; game = record { r = 3; s = 0; t = 5; p = 1 }; noise = record { n = 1; e = 100 } })) }
{
    let greater = Span {
        lo: 500_000_000_000_001,
        hi: 500_000_000_000_002,
    };
    let less = Span::point(499_000_000_000_000);
    let line = MatchLine {
        left: 2,
        right: 0,
        turns: 250,
        left_score: greater,
        right_score: less,
        tally: None,
    };
    let first = EntryLine {
        total: less,
        rank: Rank::At(2),
        wins: 0,
        undecided: 0,
    };
    let second = EntryLine {
        total: Span::point(0),
        rank: Rank::At(3),
        wins: 0,
        undecided: 0,
    };
    let third = EntryLine {
        total: greater,
        rank: Rank::At(1),
        wins: 1,
        undecided: 0,
    };
    Ok(Totals {
        matches: MatchLines::from_vec(vec![in alloc; line]?),
        entries: EntryLines::from_vec(vec![in alloc; first, second, third]?),
    })
}

fn made(alloc: Global) -> Result<Report, Fail>
    ensures { IfOk result IsValid }
{
    let head = Head {
        version: 1,
        offset: 0,
        game: Game {
            r: 3,
            s: 0,
            t: 5,
            p: 1,
        },
        noise: Noise { n: 1, e: 100 },
    };
    let noises = [head.noise, head.noise, head.noise];
    let names = entry_names()?;
    let totals = totals(alloc)?;
    Ok(tournament_report(alloc, &head, &names, &noises, &totals)?)
}

#[test]
fn makes_tournaments(rt: HostRuntime) -> Result<(), Fail> {
    let report = made(rt.alloc())?;
    let text = changed(rt.alloc(), &TEXT, 8, "")?;
    check_text(rt.alloc(), &report, text.as_str())
}
