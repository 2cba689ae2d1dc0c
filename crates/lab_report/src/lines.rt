//! The lines of a report, each by its place.
ghost use Rattle.std.specs.Prelude.{◌≡◌, ◌<◌, ◌≤◌, ◌^◌, ◌++◌, ◌∷◌, [], true, All, length, slice_get, IfSome};
ghost use Rattle.history_model.specs.Name.{IsName};
ghost use Rattle.report_lines.specs.declared.line.Line.TheVariants as lines;
ghost use Rattle.report_lines.specs.Texts.{is_line};
ghost use Rattle.report_rules.specs.Text.{body_lines, drill_lines, entry_lines, first_lines, kind_of, lab_lines, lines_of, match_lines, own_lines, rank_shown, shown_entry, shown_first, shown_match};
ghost use Rattle.report_rules.specs.Valid.{IsBody, IsTable, IsValid, head_of};

use history_model::{Name, Noise};
use report_lines::{
    Kind, Line, ShownEntry, ShownFirst, ShownGame, ShownHead, ShownMatch, ShownOwn,
};
use report_rules::{Body, Names, Report};
use result_lines::{EntryLine, MatchLine, Rank};

fn kind_of(body: &Body) -> Kind
    ensures { result ≡ kind_of body.now }
{
    match body {
        Body::Match { .. } => Kind::Match,
        Body::Tournament { .. } => Kind::Tournament,
        Body::Drill { .. } => Kind::Drill,
    }
}

fn shown_match(names: &Names, line: &MatchLine) -> ShownMatch
    requires left { line.now.left < length names.now }
    requires right { line.now.right < length names.now }
    ensures { result ≡ shown_match names.now line.now }
{
    ShownMatch {
        left: *names.at(line.left),
        right: *names.at(line.right),
        turns: line.turns,
        left_score: line.left_score,
        right_score: line.right_score,
        tally: line.tally,
    }
}

fn rank_shown(rank: Rank) -> Option<u32>
    ensures { result ≡ rank_shown rank }
{
    match rank {
        Rank::Undecided => None,
        Rank::At(rank) => Some(rank),
    }
}

fn shown_entry(names: &Names, place: u32, entry: &EntryLine) -> ShownEntry
    requires { place < length names.now }
    ensures { result ≡ shown_entry names.now place entry.now }
{
    ShownEntry {
        name: *names.at(place),
        total: entry.total,
        rank: rank_shown(entry.rank),
        wins: entry.wins,
        undecided: entry.undecided,
    }
}

fn shown_first(names: &Names, line: &(u32, i128)) -> ShownFirst
    requires { line.now.0 < length names.now }
    ensures { result ≡ shown_first names.now line.now }
{
    ShownFirst {
        name: *names.at(line.0),
        total: line.1,
    }
}

fn match_at(names: &Names, matches: &[MatchLine], index: usize) -> Option<Line>
    requires left { All (λ line. line.left < length names.now) matches.now }
    requires right { All (λ line. line.right < length names.now) matches.now }
    ensures { result ≡ slice_get (match_lines names.now matches.now) index }
{
    let line = matches.get(index)?;
    Some(Line::Match(shown_match(names, line)))
}

fn entry_at(names: &Names, who: &[u32], entries: &[EntryLine], index: usize) -> Option<Line>
    requires { All (λ place. place < length names.now) who.now }
    ensures { result ≡ slice_get (entry_lines names.now who.now entries.now) index }
{
    let place = who.get(index)?;
    let entry = entries.get(index)?;
    Some(Line::Entry(shown_entry(names, *place, entry)))
}

fn first_at(names: &Names, first: &[(u32, i128)], index: usize) -> Option<Line>
    requires { All (λ line. line.0 < length names.now) first.now }
    ensures { result ≡ slice_get (first_lines names.now first.now) index }
{
    let line = first.get(index)?;
    Some(Line::First(shown_first(names, line)))
}

// The line at a place of a table: matches come before entries.
fn table_at(
    names: &Names,
    matches: &[MatchLine],
    who: &[u32],
    entries: &[EntryLine],
    index: usize,
) -> Option<Line>
    requires left { All (λ line. line.left < length names.now) matches.now }
    requires right { All (λ line. line.right < length names.now) matches.now }
    requires below { All (λ place. place < length names.now) who.now }
    ensures { result ≡ slice_get (match_lines names.now matches.now ++ entry_lines names.now who.now entries.now) index }
{
    if index < matches.len() {
        return match_at(names, matches, index);
    }
    entry_at(names, who, entries, index - matches.len())
}

// The line at a place of a drill: the machines stand between its number and the sum.
fn drill_at(
    names: &Names,
    number: u64,
    first: &[(u32, i128)],
    sum: i128,
    index: usize,
) -> Option<Line>
    requires { All (λ line. line.0 < length names.now) first.now }
    ensures { result ≡ slice_get (drill_lines names.now number first.now sum) index }
{
    if index == 0 {
        return Some(Line::Drill(number));
    }
    match index - 1 {
        index if index < first.len() => first_at(names, first, index),
        index if index == first.len() => Some(Line::Total(sum)),
        _ => None,
    }
}

fn body_at(report: &Report, index: usize) -> Option<Line>
    requires { IsBody (length report.now.names) (head_of report.now) report.now.body }
    ensures { result ≡ slice_get (body_lines report.now.names report.now.body) index }
{
    let names = &report.names;
    match &report.body {
        Body::Match { line } if index == 0 => Some(Line::Match(shown_match(names, line))),
        Body::Match { .. } => None,
        Body::Tournament {
            matches,
            who,
            entries,
        } => {
            let matches = matches.as_slice();
            table_at(names, matches, who.as_slice(), entries.as_slice(), index)
        }
        Body::Drill { number, first, sum } => {
            drill_at(names, *number, first.as_slice(), *sum, index)
        }
    }
}

// How many lines a body has.
fn body_count(report: &Report) -> usize
    requires { IsBody (length report.now.names) (head_of report.now) report.now.body }
    ensures { result ≡ length (body_lines report.now.names report.now.body) }
{
    match &report.body {
        Body::Match { .. } => 1,
        Body::Tournament {
            matches,
            entries,
            ..
        } => matches.as_slice().len() + entries.as_slice().len(),
        Body::Drill { first, .. } => first.as_slice().len() + 2,
    }
}

fn own_at(names: &[Name], noises: &[Noise], index: usize) -> Option<Line>
    ensures { result ≡ slice_get (own_lines names.now noises.now) index }
{
    let name = names.get(index)?;
    let noise = noises.get(index)?;
    Some(Line::Own(ShownOwn {
        name: *name,
        noise: *noise,
    }))
}

// The game and the noises, which a drill doesn't show.
fn lab_at(report: &Report, index: usize) -> Option<Line>
    requires { report.now.offset ≤ 1000000 }
    ensures { result ≡ slice_get (lab_lines (kind_of report.now.body) report.now.offset report.now.game report.now.noise (own_lines report.now.names report.now.noises)) index }
{
    match (kind_of(&report.body), index) {
        (Kind::Drill, _) => None,
        (_, 0) => Some(Line::Game(ShownGame::of(&report.game, report.offset))),
        (_, 1) => Some(Line::Noise(report.noise)),
        (_, index) => own_at(report.names.as_slice(), report.noises.as_slice(), index - 2),
    }
}

fn lab_count(report: &Report) -> usize
    requires { length report.now.noises ≤ length report.now.names }
    ensures { result ≡ length (lab_lines (kind_of report.now.body) report.now.offset report.now.game report.now.noise (own_lines report.now.names report.now.noises)) }
{
    match kind_of(&report.body) {
        Kind::Drill => 0,
        Kind::Match | Kind::Tournament => 2 + report.noises.as_slice().len(),
    }
}

// The line at a place behind the first line and the lab.
fn body_line(report: &Report, index: usize) -> Option<Line>
    requires { IsBody (length report.now.names) (head_of report.now) report.now.body }
    ensures { result ≡ slice_get (body_lines report.now.names report.now.body ++ lines.End ∷ []) index }
{
    let count = body_count(report);
    if index < count {
        body_at(report, index)
    } else if index == count {
        Some(Line::End)
    } else {
        None
    }
}

/// The line at a place of a report, counted from zero; nothing where it has no more.
pub(crate) fn line_at(report: &Report, index: usize) -> Option<Line>
    requires valid { IsValid report.now }
    ensures line { result ≡ slice_get (lines_of report.now) index }
    ensures printable { IfSome result (λ line. is_line line ≡ true) }
    ensures few { IfSome result (λ line. index < 2 ^ 16) }
{
    if index == 0 {
        return Some(Line::Head(ShownHead {
            version: report.version,
            kind: kind_of(&report.body),
        }));
    }
    let behind = index - 1;
    let lab = lab_count(report);
    if behind < lab {
        lab_at(report, behind)
    } else {
        body_line(report, behind - lab)
    }
}
