//! The line of a match, and what may follow it in the report of one match.
ghost use Rattle.std.specs.Prelude.{◌≡◌, ◌≤◌, ◌<◌, ◌-◌, ◌^◌, true, [], length, IfOk, OnOk};
ghost use Rattle.report_lines.specs.Texts.{counts_are, is_line, is_match};
ghost use Rattle.report_rules.specs.declared.state.BodySoFar.TheVariants as parts;
ghost use Rattle.report_rules.specs.Grammar.{HasRoom};
ghost use Rattle.report_rules.specs.Valid.{paid};
ghost use Rattle.report_rules.specs.MatchRules.{is_scored, is_shown, match_allows, pays, same_ends, names_with_match, placed_match, after_match};

use crate::state::{BodySoFar, State};
use crate::{Body, Head, Names};
use fixed_span::Span;
use history_model::{NoMemory, Tally};
use report_lines::{Line, ShownMatch};
use report_names::OwnNoises;
use result_lines::MatchLine;

/// Whether two spans have the same ends.
pub(crate) fn same_ends(a: Span, b: Span) -> bool
    ensures { result ≡ same_ends a b }
{
    let (a_lo, a_hi) = a.ends();
    let (b_lo, b_hi) = b.ends();
    a_lo == b_lo && a_hi == b_hi
}

// Whether a score may be shown as low as it is.
fn is_shown(version: u32, score: Span) -> bool
    ensures { result ≡ is_shown version score }
{
    version != 1 || score.ends().0 >= 0
}

// The score of points in the raised game.
fn paid(offset: u32, turns: u64, points: u128) -> Span
    requires offset { offset ≤ 1000000 }
    requires turns { turns ≤ 10 ^ 12 }
    requires points { points ≤ 10 ^ 18 }
    ensures { result ≡ paid offset turns points }
{
    let span = Span::point(points as i128 * 1_000_000_000_000);
    span.lowered(offset as u128 * turns as u128 * 1_000_000_000_000)
}

fn pays(head: &Head, found: &ShownMatch, tally: &Option<Tally>) -> bool
    requires offset { head.now.offset ≤ 1000000 }
    requires turns { found.now.turns ≤ 10 ^ 12 }
    requires counts { counts_are found.now.turns tally.now ≡ true }
    ensures { result ≡ pays head.now found.now.left_score found.now.right_score found.now.turns tally.now }
{
    match tally {
        None => true,
        Some(tally) => {
            let left = paid(head.offset, found.turns, tally.left_points(&head.game));
            let right = paid(head.offset, found.turns, tally.right_points(&head.game));
            same_ends(found.left_score, left) && same_ends(found.right_score, right)
        }
    }
}

/// Whether the scores of a match may stand in this version, and are what its counts are paid.
pub(crate) fn is_scored(head: &Head, found: &ShownMatch) -> bool
    requires offset { head.now.offset ≤ 1000000 }
    requires line { is_match found.now ≡ true }
    ensures { result ≡ is_scored head.now found.now }
{
    (is_shown(head.version, found.left_score) && is_shown(head.version, found.right_score))
        && pays(head, found, &found.tally)
}

/// Whether a line may stand behind that of the match, or behind none yet.
pub(crate) fn match_allows(head: &Head, line: &Option<MatchLine>, next: &Line) -> bool
    requires offset { head.now.offset ≤ 1000000 }
    requires line { is_line next.now ≡ true }
    ensures { result ≡ match_allows head.now line.now next.now }
{
    match (line, next) {
        (None, Line::Match(found)) => is_scored(head, found),
        (Some(_), Line::End) => true,
        _ => false,
    }
}

/// The match with places in place of its names, which come behind all others where they are new.
pub(crate) fn placed_match(names: &mut Names, found: &ShownMatch) -> Result<MatchLine, NoMemory>
    requires { length names.old < 2 ^ 32 - 2 }
    ensures line { IfOk result (λ line. line ≡ placed_match names.old found.now) }
    ensures names { OnOk result (names.new ≡ names_with_match names.old found.now) }
{
    let left = names.place(&found.left)?;
    let right = names.place(&found.right)?;
    Ok(MatchLine {
        left,
        right,
        turns: found.turns,
        left_score: found.left_score,
        right_score: found.right_score,
        tally: found.tally,
    })
}

/// What a line behind that of a match leaves, or behind none yet.
pub(crate) fn after_match(
    head: Head,
    own: OwnNoises,
    mut names: Names,
    line: Option<MatchLine>,
    next: Line,
) -> Result<State, NoMemory>
    requires { HasRoom (parts.Match line) names }
    ensures { IfOk result (λ state. state ≡ after_match head own names line next) }
{
    match (line, next) {
        (None, Line::Match(found)) => {
            let line = placed_match(&mut names, &found)?;
            Ok(State::InBody {
                head,
                own,
                names,
                body: BodySoFar::Match { line: Some(line) },
            })
        }
        (Some(line), Line::End) => Ok(State::Ended {
            head,
            noises: own.noises,
            names,
            body: Body::Match { line },
        }),
        (line, _) => Ok(State::InBody {
            head,
            own,
            names,
            body: BodySoFar::Match { line },
        }),
    }
}
