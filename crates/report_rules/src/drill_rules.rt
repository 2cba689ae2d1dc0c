//! What may follow in the report of a drill.
ghost use Rattle.std.specs.Prelude.{◌≡◌, IfOk};
ghost use Rattle.report_rules.specs.DrillRules.{HasDrillRoom, after_drill, drill_allows};
ghost use Rattle.report_rules.specs.Valid.{drill_game, drill_head};
ghost use Rattle.history_model.specs.Noise.{no_noise};

use crate::state::{DrillSoFar, State};
use crate::{Body, Head, Leaders, Names, Noises};
use history_model::{Game, NoMemory, Noise};
use report_lines::Line;
use std::alloc::Global;

/// The game of every drill.
pub fn drill_game() -> Game
    ensures { result ≡ drill_game }
{
    Game {
        r: 3,
        s: 0,
        t: 5,
        p: 1,
    }
}

/// The noise of every drill: no move is flipped.
pub fn no_noise() -> Noise
    ensures { result ≡ no_noise }
{
    Noise { n: 0, e: 1 }
}

fn drill_head() -> Head
    ensures { result ≡ drill_head }
{
    Head {
        version: 1,
        offset: 0,
        game: drill_game(),
        noise: no_noise(),
    }
}

/// Whether a line may stand behind those of a drill.
pub(crate) fn drill_allows(drill: &DrillSoFar, next: &Line) -> bool
    ensures { result ≡ drill_allows drill.now next.now }
{
    match (drill, next) {
        (DrillSoFar::Begun, Line::Drill(_)) => true,
        (DrillSoFar::Numbered { first, .. }, Line::First(_)) => first.as_slice().len() < 64,
        (DrillSoFar::Numbered { .. }, Line::Total(_)) => true,
        (DrillSoFar::Summed { .. }, Line::End) => true,
        _ => false,
    }
}

/// What a line behind those of a drill leaves.
pub(crate) fn after_drill(
    alloc: Global,
    mut names: Names,
    drill: DrillSoFar,
    next: Line,
) -> Result<State, NoMemory>
    requires { HasDrillRoom names drill }
    ensures { IfOk result (λ state. state ≡ after_drill names drill next) }
{
    match (drill, next) {
        (DrillSoFar::Begun, Line::Drill(number)) => {
            let first = Leaders::from_vec(Vec::new(alloc));
            Ok(State::InDrill {
                names,
                drill: DrillSoFar::Numbered { number, first },
            })
        }
        (DrillSoFar::Numbered { number, first }, Line::First(found)) => {
            let place = names.place(&found.name)?;
            let first = first.with(place, found.total)?;
            Ok(State::InDrill {
                names,
                drill: DrillSoFar::Numbered { number, first },
            })
        }
        (DrillSoFar::Numbered { number, first }, Line::Total(sum)) => Ok(State::InDrill {
            names,
            drill: DrillSoFar::Summed { number, first, sum },
        }),
        (DrillSoFar::Summed { number, first, sum }, Line::End) => Ok(State::Ended {
            head: drill_head(),
            noises: Noises::from_vec(Vec::new(alloc)),
            names,
            body: Body::Drill { number, first, sum },
        }),
        (drill, _) => Ok(State::InDrill { names, drill }),
    }
}
