//! What may follow in the report of a tournament.
ghost use Rattle.std.specs.Prelude.{◌≡◌, ◌≤◌, ◌<◌, ◌-◌, ◌^◌, true, All, length, map, IfOk};
ghost use Rattle.report_lines.specs.Texts.{is_line, is_match};
ghost use Rattle.result_lines.specs.Totals.{AreSummable, total_of, wins_of, undecided_of};
ghost use Rattle.result_lines.specs.Ranks.{rank_of};
ghost use Rattle.report_rules.specs.Room.{HasTableRoom};
ghost use Rattle.report_names.specs.Names.{place_in};
ghost use Rattle.report_rules.specs.TableRules.{rank_read, unnamed, adds_up, totals_in, same_rank, ranked_from, are_ranked, match_fits, entry_fits, is_whole, with_match, with_entry, table_allows, after_table};

use crate::match_rules::{is_scored, placed_match, same_ends};
use crate::state::{BodySoFar, State};
use crate::table::Table;
use crate::{Body, Head, Names, place_in};
use fixed_span::Span;
use history_model::NoMemory;
use report_lines::{Line, ShownEntry, ShownMatch};
use report_names::OwnNoises;
use result_lines::{EntryLine, MatchLine, Rank, rank_of, total_of, undecided_of, wins_of};
use std::alloc::Global;

// An undecided rank has no number.
fn rank_read(rank: Option<u32>) -> Rank
    ensures { result ≡ rank_read rank }
{
    match rank {
        None => Rank::Undecided,
        Some(rank) => Rank::At(rank),
    }
}

fn unnamed(entry: &ShownEntry) -> EntryLine
    ensures { result ≡ unnamed entry.now }
{
    EntryLine {
        total: entry.total,
        rank: rank_read(entry.rank),
        wins: entry.wins,
        undecided: entry.undecided,
    }
}

fn adds_up(matches: &[MatchLine], place: u32, entry: &ShownEntry) -> bool
    requires few { length matches.now ≤ 2080 }
    requires scores { All AreSummable matches.now }
    ensures { result ≡ adds_up matches.now place entry.now }
{
    same_ends(entry.total, total_of(matches, place))
        && (entry.wins == wins_of(matches, place)
            && entry.undecided == undecided_of(matches, place))
}

fn totals_in(alloc: Global, entries: &[EntryLine]) -> Result<Vec<Span>, NoMemory>
    ensures { IfOk result (λ totals. totals.items ≡ totals_in entries.now) }
{
    let mut totals = Vec::new(alloc);
    for entry in entries {
        totals.push(entry.total)?;
    }
    Ok(totals)
}

fn same_rank(a: Rank, b: Rank) -> bool
    ensures { result ≡ same_rank a b }
{
    match (a, b) {
        (Rank::At(a), Rank::At(b)) => a == b,
        (Rank::Undecided, Rank::Undecided) => true,
        _ => false,
    }
}

fn all_ranked(totals: &[Span], entries: &[EntryLine]) -> bool
    requires few { length totals.now ≤ 64 }
    requires long { length entries.now ≤ length totals.now }
    ensures { result ≡ ranked_from totals.now 0 entries.now }
{
    let mut place: u32 = 0;
    for entry in entries {
        if !same_rank(entry.rank, rank_of(totals, place)) {
            return false;
        }
        place += 1;
    }
    true
}

// Whether each rank is the one by the totals of all lines.
fn are_ranked(alloc: Global, entries: &[EntryLine]) -> Result<bool, NoMemory>
    requires { length entries.now ≤ 64 }
    ensures { IfOk result (λ ranked. ranked ≡ are_ranked entries.now) }
{
    let totals = totals_in(alloc, entries)?;
    Ok(all_ranked(&totals, entries))
}

fn match_fits(head: &Head, table: &Table, found: &ShownMatch) -> bool
    requires offset { head.now.offset ≤ 1000000 }
    requires line { is_match found.now ≡ true }
    ensures { result ≡ match_fits head.now table.now found.now }
{
    table.entries.as_slice().is_empty()
        && table.matches.as_slice().len() < 2080
        && is_scored(head, found)
}

fn entry_fits(names: &Names, table: &Table, entry: &ShownEntry) -> bool
    requires { HasTableRoom names.now table.now }
    ensures { result ≡ entry_fits names.now table.now entry.now }
{
    let place = place_in(names.as_slice(), &entry.name);
    table.entries.as_slice().len() < 64
        && !table.who.has(place)
        && adds_up(table.matches.as_slice(), place, entry)
}

// Whether all entries have lines, and these the right ranks.
fn is_whole(alloc: Global, names: &Names, table: &Table) -> Result<bool, NoMemory>
    requires { HasTableRoom names.now table.now }
    ensures { IfOk result (λ whole. whole ≡ is_whole names.now table.now) }
{
    let entries = table.entries.as_slice();
    if entries.is_empty() || !are_ranked(alloc, entries)? {
        return Ok(false);
    }
    let count = names.as_slice().len() as u32;
    Ok(table.who.has_all(count))
}

/// Whether a line may stand behind those of a table.
pub(crate) fn table_allows(
    alloc: Global,
    head: &Head,
    names: &Names,
    table: &Table,
    next: &Line,
) -> Result<bool, NoMemory>
    requires offset { head.now.offset ≤ 1000000 }
    requires line { is_line next.now ≡ true }
    requires room { HasTableRoom names.now table.now }
    ensures { IfOk result (λ allowed. allowed ≡ table_allows head.now names.now table.now next.now) }
{
    match next {
        Line::Match(found) => Ok(match_fits(head, table, found)),
        Line::Entry(entry) => Ok(entry_fits(names, table, entry)),
        Line::End => is_whole(alloc, names, table),
        _ => Ok(false),
    }
}

/// What a line behind those of a table leaves.
pub(crate) fn after_table(
    head: Head,
    own: OwnNoises,
    mut names: Names,
    table: Table,
    next: Line,
) -> Result<State, NoMemory>
    requires { HasTableRoom names table }
    ensures { IfOk result (λ state. state ≡ after_table head own names table next) }
{
    let table = match next {
        Line::Match(found) => {
            let line = placed_match(&mut names, &found)?;
            table.with_match(line)?
        }
        Line::Entry(entry) => {
            let place = names.place(&entry.name)?;
            table.with_entry(place, unnamed(&entry))?
        }
        Line::End => {
            return Ok(State::Ended {
                head,
                noises: own.noises,
                names,
                body: Body::Tournament {
                    matches: table.matches,
                    who: table.who,
                    entries: table.entries,
                },
            });
        }
        _ => table,
    };
    Ok(State::InBody {
        head,
        own,
        names,
        body: BodySoFar::Tournament { table },
    })
}
