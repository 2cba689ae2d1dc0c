//! What a report says.
use crate::{Leaders, Names, Noises, Places};
use history_model::{Game, Noise};
use result_lines::{EntryLines, MatchLine, MatchLines};

/// The lines of a report that its first word names. Entries are places in the report's names.
#[derive(Drop)]
pub enum Body {
    /// One match.
    Match {
        line: MatchLine,
    },
    /// Matches, and what they give each entry; `who` names the entry of each of the last lines.
    Tournament {
        matches: MatchLines,
        who: Places,
        entries: EntryLines,
    },
    /// The machines of the first rank with their totals, and the sum of all totals, in units of 10^-12.
    Drill {
        /// What the machines are drawn from.
        number: u64,
        first: Leaders,
        sum: i128,
    },
}

/// What a report tells of its lab, apart from the entries.
#[derive(Clone, Copy, Debug, PartialEq, Eq)]
pub struct Head {
    /// The version of the lab, 1 or 2.
    pub version: u32,
    /// What was added to each payoff of the file, from 0 to 1,000,000; 0 in version 1.
    pub offset: u32,
    /// The payoffs with the offset.
    pub game: Game,
    /// The noise of every player that has none of its own.
    pub noise: Noise,
}

/// What a command tells of a lab.
#[derive(Drop)]
pub struct Report {
    /// The version of the text, 1 or 2; 1 of a drill.
    pub version: u32,
    /// What was added to each payoff of the file, from 0 to 1,000,000; 0 in version 1.
    pub offset: u32,
    /// The payoffs with the offset.
    pub game: Game,
    /// The noise of every player that has none of its own.
    pub noise: Noise,
    /// The noise of each name; none in version 1.
    pub noises: Noises,
    /// The names that the text shows, each once, in order of first appearance.
    pub names: Names,
    pub body: Body,
}
