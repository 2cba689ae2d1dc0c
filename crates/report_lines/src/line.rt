//! Lines as values.
use fixed_span::Span;
use history_model::{Name, Noise, Tally};

/// What a report is of, which its first line says.
#[derive(Clone, Copy, Debug, PartialEq, Eq)]
pub enum Kind {
    /// One match.
    Match,
    /// Matches of entries, and how each entry did in them.
    Tournament,
    /// The first of the machines that are drawn from a number.
    Drill,
}

/// What the first line shows: the version of the lab, and what the report is of. The range is that of lines
/// that are printed and read, and not the type's.
#[derive(Clone, Copy, Debug, PartialEq, Eq)]
pub struct ShownHead {
    /// 1 or 2, and 1 of a drill.
    pub version: u32,
    pub kind: Kind,
}

/// The payoffs as the lab's file has them, which its line shows with whether they make a prisoner's
/// dilemma. The range is that of lines that are printed and read, and not the type's.
#[derive(Clone, Copy, Debug, PartialEq, Eq)]
pub struct ShownGame {
    /// From -1,000,000 to 1,000,000, as the other three.
    pub r: i64,
    pub s: i64,
    pub t: i64,
    pub p: i64,
}

/// The noise of one entry as its line shows it, with its name.
#[derive(Clone, Copy)]
pub struct ShownOwn {
    pub name: Name,
    pub noise: Noise,
}

/// A match as its line shows it, with the names of its players: the turns, what the two scored, and,
/// exactly where the match is sure, how often each play came. The ranges are those of lines that are
/// printed and read, and not the type's.
#[derive(Clone, Copy)]
pub struct ShownMatch {
    pub left: Name,
    pub right: Name,
    /// From 1 to 10^12.
    pub turns: u64,
    /// From -10^33 to 10^33 units of 10^-12, as the right score.
    pub left_score: Span,
    pub right_score: Span,
    /// Its counts sum to the turns.
    pub tally: Option<Tally>,
}

/// An entry of a tournament as its line shows it, with its name: what it scored in all its matches,
/// its rank, and in how many matches it won or the winner is undecided. The range of the total is
/// that of lines that are printed and read, and not the type's.
#[derive(Clone, Copy)]
pub struct ShownEntry {
    pub name: Name,
    /// From -10^37 to 10^37 units of 10^-12.
    pub total: Span,
    /// `None` where the totals leave it undecided.
    pub rank: Option<u32>,
    pub wins: u32,
    pub undecided: u32,
}

/// A machine of the first rank as its line shows it, with its name and its total. The range of the
/// total is that of lines that are printed and read, and not the type's.
#[derive(Clone, Copy)]
pub struct ShownFirst {
    pub name: Name,
    /// From 0 to 10^37 units of 10^-12.
    pub total: i128,
}

/// A line of a report of version 1 or 2. The ranges are those of version 2: which of them version 1
/// allows, the report says.
#[derive(Clone, Copy)]
pub enum Line {
    /// The first line.
    Head(ShownHead),
    /// The payoffs, and whether they make a prisoner's dilemma.
    Game(ShownGame),
    /// The noise of every player, or of the lab.
    Noise(Noise),
    /// The noise of one entry.
    Own(ShownOwn),
    /// A match.
    Match(ShownMatch),
    /// An entry of a tournament.
    Entry(ShownEntry),
    /// The number of a drill, with how many machines there are and how many turns each two play.
    Drill(u64),
    /// A machine of the first rank.
    First(ShownFirst),
    /// The sum of all totals, from 0 to 10^37 units of 10^-12.
    Total(i128),
    /// The last line.
    End,
}
