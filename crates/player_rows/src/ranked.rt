//! Ranks by totals that are known up to some width, and by those of a game with payoffs below 0.
ghost use Rattle.std.specs.Prelude.{IfOk};
ghost use Rattle.result_lines.specs.Lowered.{CanBeLowered, IsRaised};
ghost use Rattle.result_lines.specs.Totals.{IsScoreSpan};

use fixed_span::Span;
use history_model::NoMemory;
use match_play::MatchLine;
use round_robin::{EntryLine, EntryLines, MatchLines, Rank, Totals, rank_of, ranks};
use std::alloc::Global;

const SCORE_UNITS: u128 = 1_000_000_000_000;

#[test]
fn touching_spans_have_no_rank(rt: HostRuntime) -> Result<(), NoMemory> {
    let alloc = rt.alloc();
    let spans = [
        Span { lo: 5, hi: 7 },
        Span { lo: 7, hi: 9 },
        Span { lo: 2, hi: 4 },
        Span { lo: 1, hi: 1 },
        Span { lo: 1, hi: 1 },
    ];
    let wanted = [
        Rank::Undecided,
        Rank::Undecided,
        Rank::At(3),
        Rank::At(4),
        Rank::At(4),
    ];
    let found = ranks(alloc, &spans)?;
    assert_eq!(rt; found.as_slice(), wanted.as_slice());
    assert_eq!(rt; rank_of(&spans, 2), Rank::At(3));
    Ok(())
}

fn points(points: u32) -> Span
    ensures { IsScoreSpan result }
{
    Span::point((points as u128 * SCORE_UNITS) as i128)
}

// A match of one turn.
fn one_turn(left: u32, right: u32, left_points: u32, right_points: u32) -> MatchLine
    ensures { IsRaised result }
{
    MatchLine {
        left,
        right,
        turns: 1,
        left_score: points(left_points),
        right_score: points(right_points),
        tally: None,
    }
}

fn entry(total: u32, rank: u32, wins: u32) -> EntryLine {
    EntryLine {
        total: points(total),
        rank: Rank::At(rank),
        wins,
        undecided: 0,
    }
}

// The results of two matches, with entries that were made before an offset.
fn raised(
    alloc: Global,
    first: MatchLine,
    second: MatchLine,
    entries: [EntryLine; 3],
) -> Result<Totals, NoMemory>
    requires first { IsRaised first }
    requires second { IsRaised second }
    ensures { IfOk result CanBeLowered }
{
    let lines = vec![in alloc; first, second]?;
    let entries = Vec::from_array(alloc, entries)?;
    Ok(Totals {
        matches: MatchLines::from_vec(lines),
        entries: EntryLines::from_vec(entries),
    })
}

// Coop, defector and tft in the game 2, -1, 3, 0, which is held raised by 1: coop met the two others, and so
// its total alone is less by two turns. The raised totals 3, 4, 3 would give the ranks 2, 1, 2.
#[test]
fn ranks_by_lowered_totals(rt: HostRuntime) -> Result<(), NoMemory> {
    let alloc = rt.alloc();
    let before = [entry(3, 2, 0), entry(4, 1, 1), entry(3, 2, 0)];
    let results = raised(alloc, one_turn(0, 1, 0, 4), one_turn(0, 2, 3, 3), before)?;
    let lowered = results.lowered(alloc, 1)?;
    let wanted = [entry(1, 3, 0), entry(3, 1, 1), entry(2, 2, 0)];
    assert_eq!(rt; lowered.entries.as_slice(), wanted.as_slice());
    let scores = lowered
        .matches
        .as_slice()
        .first()
        .map(|line| (line.left_score, line.right_score));
    let loss = Span::point(-1_000_000_000_000);
    assert_eq!(rt; scores, Some((loss, points(3))));
    Ok(())
}
