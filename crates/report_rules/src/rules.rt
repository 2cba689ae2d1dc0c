//! Which line may follow which, and what it leaves.
ghost use Rattle.std.specs.Prelude.{◌≡◌, ◌≤◌, ◌||◌, ◌==◌, not, true, IfOk};
ghost use Rattle.report_lines.specs.HeadForms.{is_game};
ghost use Rattle.report_lines.specs.Texts.{is_line};
ghost use Rattle.report_rules.specs.Grammar.{after, after_head, after_inner, allows, body_allows, inner_allows, is_game_of, own_of, HasRoom, StateHasRoom};

use crate::drill_rules::{after_drill, drill_allows};
use crate::match_rules::{after_match, match_allows};
use crate::own_rules::{follows, own_allows, own_of};
use crate::state::{BodySoFar, DrillSoFar, State};
use crate::table::Table;
use crate::table_rules::{after_table, table_allows};
use crate::{Head, Names};
use history_model::NoMemory;
use report_lines::{Kind, Line, ShownGame};
use report_names::OwnNoises;
use std::alloc::Global;

fn is_game_of(version: u32, found: &ShownGame) -> bool
    requires { is_game found.now ≡ true }
    ensures { result ≡ is_game_of version found.now }
{
    (version != 1 || found.offset() == 0) && found.is_near()
}

fn body_allows(
    alloc: Global,
    head: &Head,
    names: &Names,
    body: &BodySoFar,
    next: &Line,
) -> Result<bool, NoMemory>
    requires offset { head.now.offset ≤ 1000000 }
    requires line { is_line next.now ≡ true }
    requires room { HasRoom body.now names.now }
    ensures { IfOk result (λ allowed. allowed ≡ body_allows head.now names.now body.now next.now) }
{
    match body {
        BodySoFar::Match { line } => Ok(match_allows(head, line, next)),
        BodySoFar::Tournament { table } => table_allows(alloc, head, names, table, next),
    }
}

// Whether a line may stand behind those of a head, of noises of single names, and of a body.
fn inner_allows(
    alloc: Global,
    head: &Head,
    own: &OwnNoises,
    names: &Names,
    body: &BodySoFar,
    next: &Line,
) -> Result<bool, NoMemory>
    requires offset { head.now.offset ≤ 1000000 }
    requires line { is_line next.now ≡ true }
    requires room { HasRoom body.now names.now }
    ensures { IfOk result (λ allowed. allowed ≡ inner_allows head.now own.now names.now body.now next.now (own_of next.now)) }
{
    match own_of(next) {
        Some(found) => Ok(own_allows(head.version, &own.names, names, &found)),
        None => {
            let allowed = body_allows(alloc, head, names, body, next)?;
            Ok(allowed && follows(head.version, &own.names, names, next))
        }
    }
}

/// Whether a line may stand behind those that led to the state.
pub(crate) fn allows(alloc: Global, state: &State, next: &Line) -> Result<bool, NoMemory>
    requires line { is_line next.now ≡ true }
    requires room { StateHasRoom state.now }
    ensures { IfOk result (λ allowed. allowed ≡ allows state.now next.now) }
{
    match (state, next) {
        (State::Start, Line::Head(_)) => Ok(true),
        (State::AfterHead { version, .. }, Line::Game(found)) => Ok(is_game_of(*version, found)),
        (State::AfterGame { .. }, Line::Noise(_)) => Ok(true),
        (
            State::InBody {
                head,
                own,
                names,
                body,
            },
            _,
        ) => inner_allows(alloc, head, own, names, body, next),
        (State::InDrill { drill, .. }, _) => Ok(drill_allows(drill, next)),
        _ => Ok(false),
    }
}

// What the first line leaves.
fn after_head(alloc: Global, version: u32, kind: Kind) -> State
    ensures { result ≡ after_head version kind }
{
    match kind {
        Kind::Match => State::AfterHead {
            version,
            body: BodySoFar::Match { line: None },
        },
        Kind::Tournament => State::AfterHead {
            version,
            body: BodySoFar::Tournament {
                table: Table::new(alloc),
            },
        },
        Kind::Drill => State::InDrill {
            names: Names::new(alloc),
            drill: DrillSoFar::Begun,
        },
    }
}

// What a line behind those of a head, of noises of single names, and of a body leaves.
fn after_inner(
    head: Head,
    own: OwnNoises,
    names: Names,
    body: BodySoFar,
    next: Line,
) -> Result<State, NoMemory>
    requires { HasRoom body names }
    ensures { IfOk result (λ state. state ≡ after_inner head own names body next (own_of next)) }
{
    match own_of(&next) {
        Some(found) => Ok(State::InBody {
            head,
            own: own.with(&found.name, found.noise)?,
            names,
            body,
        }),
        None => match body {
            BodySoFar::Match { line } => after_match(head, own, names, line, next),
            BodySoFar::Tournament { table } => after_table(head, own, names, table, next),
        },
    }
}

/// What a line leaves behind those that led to the state.
#[tactic(auto, using(crate::proofs::RoomLaws::room_kept))]
pub(crate) fn after(alloc: Global, state: State, next: Line) -> Result<State, NoMemory>
    requires room { StateHasRoom state }
    requires line { is_line next ≡ true }
    requires allowed { allows state next ≡ true }
    ensures new { IfOk result (λ new. new ≡ after state next) }
    ensures room { IfOk result StateHasRoom }
{
    match state {
        State::Start => match next {
            Line::Head(found) => Ok(after_head(alloc, found.version, found.kind)),
            _ => Ok(State::Start),
        },
        State::AfterHead { version, body } => match next {
            Line::Game(found) => Ok(State::AfterGame {
                version,
                offset: found.offset(),
                game: found.raised(),
                body,
            }),
            _ => Ok(State::AfterHead { version, body }),
        },
        State::AfterGame {
            version,
            offset,
            game,
            body,
        } => match next {
            Line::Noise(noise) => Ok(State::InBody {
                head: Head {
                    version,
                    offset,
                    game,
                    noise,
                },
                own: OwnNoises::new(alloc),
                names: Names::new(alloc),
                body,
            }),
            _ => Ok(State::AfterGame {
                version,
                offset,
                game,
                body,
            }),
        },
        State::InBody {
            head,
            own,
            names,
            body,
        } => after_inner(head, own, names, body, next),
        State::InDrill { names, drill } => after_drill(alloc, names, drill, next),
        ended => Ok(ended),
    }
}
