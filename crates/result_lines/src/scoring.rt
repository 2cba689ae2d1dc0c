//! What a tournament makes of its lines for each entry.
ghost use Rattle.std.specs.Prelude.{◌≡◌, ◌+◌, ◌<◌, ◌≤◌, ◌^◌, All, IfOk, length, map, count_by};
ghost use Rattle.fixed_span.specs.Verdict.{verdict};
ghost use Rattle.result_lines.specs.Ranks.{rank_of};
ghost use Rattle.result_lines.specs.Totals.{AreSummable, entries_of, entry_of, leaves_undecided, meets_another, own_score, own_verdict, total_of, totals_of, undecided_of, wins_match, wins_of};

use crate::ranking::{is_greater, is_undecided};
use crate::{EntryLine, MatchLine, rank_of};
use fixed_span::{Span, Verdict, compare};
use history_model::NoMemory;
use std::alloc::Global;

// What a match adds to the total of an entry.
fn own_score(line: &MatchLine, i: u32) -> Span
    ensures { result ≡ own_score i line.now }
{
    if line.left == i {
        line.left_score
    } else if line.right == i {
        line.right_score
    } else {
        Span::point(0)
    }
}

/// The total of the entry at a place: the sum of its own spans in at most 4,096 matches, of a match with
/// itself the left one. Scores are from -10^33 to 10^33 units.
pub fn total_of(lines: &[MatchLine], i: u32) -> Span
    requires few { length lines.now ≤ 4096 }
    requires scores { All AreSummable lines.now }
    ensures { result ≡ total_of i lines.now }
{
    let mut total = Span::point(0);
    for line in lines {
        total = total.add(own_score(line, i));
    }
    total
}

fn meets_another(line: &MatchLine, i: u32) -> bool
    ensures { result ≡ meets_another i line.now }
{
    (line.left == i || line.right == i) && line.left != line.right
}

// The verdict of the entry's own span and the other one.
fn own_verdict(line: &MatchLine, i: u32) -> Verdict
    ensures { result ≡ own_verdict i line.now }
{
    if line.left == i {
        compare(line.left_score, line.right_score)
    } else {
        compare(line.right_score, line.left_score)
    }
}

/// How many matches with others the entry at a place wins, of at most 4,096.
pub fn wins_of(lines: &[MatchLine], i: u32) -> u32
    requires { length lines.now ≤ 4096 }
    ensures { result ≡ wins_of i lines.now }
{
    lines
        .iter()
        .filter(|line| meets_another(line, i) && is_greater(own_verdict(line, i)))
        .count() as u32
}

/// How many matches of the entry at a place with others are undecided, of at most 4,096.
pub fn undecided_of(lines: &[MatchLine], i: u32) -> u32
    requires { length lines.now ≤ 4096 }
    ensures { result ≡ undecided_of i lines.now }
{
    lines
        .iter()
        .filter(|line| meets_another(line, i) && is_undecided(own_verdict(line, i)))
        .count() as u32
}

// The totals of so many entries.
fn totals_of(alloc: Global, lines: &[MatchLine], count: u32) -> Result<Vec<Span>, NoMemory>
    requires few { length lines.now ≤ 4096 }
    requires scores { All AreSummable lines.now }
    ensures { IfOk result (λ spans. spans.items ≡ totals_of count lines.now) }
{
    let mut spans = Vec::new(alloc);
    for i in 0..count {
        spans.push(total_of(lines, i))?;
    }
    Ok(spans)
}

/// The lines of so many entries, from at most 4,096 matches whose scores are from -10^33 to 10^33 units.
///
/// # Errors
///
/// `NoMemory` where the totals or the lines find no memory.
pub fn entries_of(
    alloc: Global,
    lines: &[MatchLine],
    count: u32,
) -> Result<Vec<EntryLine>, NoMemory>
    requires few { length lines.now ≤ 4096 }
    requires scores { All AreSummable lines.now }
    ensures { IfOk result (λ entries. entries.items ≡ entries_of count lines.now) }
{
    let spans = totals_of(alloc, lines, count)?;
    let mut entries = Vec::new(alloc);
    for i in 0..count {
        entries.push(EntryLine {
            total: spans[i as usize],
            rank: rank_of(&spans, i),
            wins: wins_of(lines, i),
            undecided: undecided_of(lines, i),
        })?;
    }
    Ok(entries)
}
