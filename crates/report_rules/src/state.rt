//! What the lines of a report that were read so far leave.
use crate::table::Table;
use crate::{Body, Head, Leaders, Names, Noises};
use history_model::Game;
use report_names::OwnNoises;
use result_lines::MatchLine;

/// The lines of a body so far, by what the report is of.
#[derive(Drop)]
pub(crate) enum BodySoFar {
    Match { line: Option<MatchLine> },
    Tournament { table: Table },
}

/// The lines of a drill so far.
#[derive(Drop)]
pub(crate) enum DrillSoFar {
    /// None but the first.
    Begun,
    /// The number, and machines of the first rank.
    Numbered {
        number: u64,
        first: Leaders,
    },
    /// The sum too.
    Summed {
        number: u64,
        first: Leaders,
        sum: i128,
    },
}

/// What was read, and so which line comes next.
#[derive(Drop)]
pub(crate) enum State {
    Start,
    AfterHead {
        version: u32,
        body: BodySoFar,
    },
    AfterGame {
        version: u32,
        offset: u32,
        game: Game,
        body: BodySoFar,
    },
    InBody {
        head: Head,
        own: OwnNoises,
        names: Names,
        body: BodySoFar,
    },
    InDrill {
        names: Names,
        drill: DrillSoFar,
    },
    Ended {
        head: Head,
        noises: Noises,
        names: Names,
        body: Body,
    },
}
