//! The lists of a tournament: its matches, and its entries.
ghost use Rattle.std.specs.Prelude.{◌≡◌};

use crate::{MatchLine, Rank};
use fixed_span::Span;
use std::marker::Model;

/// What a tournament makes of an entry: the sum of its own spans in units of 10^-12, its rank by the
/// totals of all, and how many matches against other entries its own span won, or left undecided.
#[derive(Clone, Copy, Debug, PartialEq, Eq)]
pub struct EntryLine {
    pub total: Span,
    pub rank: Rank,
    pub wins: u32,
    pub undecided: u32,
}

/// The lines of matches, in order. Contracts see them as their list.
#[derive(Drop)]
pub struct MatchLines {
    items: Vec<MatchLine>,
}

impl Model for MatchLines {
    ghost use Rattle.std.specs.Prelude.{List};
    ghost use Rattle.result_lines.specs.declared.line.MatchLine.{MatchLine};

    ghost Value = { List MatchLine };

    ghost view = { λ s. s.items.items };
}

impl MatchLines {
    /// The lines of this list.
    pub fn from_vec(items: Vec<MatchLine>) -> MatchLines
        ensures { result ≡ items.items }
    {
        MatchLines { items }
    }

    /// The list back.
    pub fn into_vec(self) -> Vec<MatchLine>
        ensures { result.items ≡ self }
    {
        self.items
    }

    /// The lines as a slice.
    pub fn as_slice(&self) -> &[MatchLine]
        ensures { result.now ≡ self.now }
    {
        &self.items
    }
}

/// The lines of entries, in order. Contracts see them as their list.
#[derive(Drop)]
pub struct EntryLines {
    items: Vec<EntryLine>,
}

impl Model for EntryLines {
    ghost use Rattle.std.specs.Prelude.{List};
    ghost use Rattle.result_lines.specs.declared.tables.EntryLine.{EntryLine};

    ghost Value = { List EntryLine };

    ghost view = { λ s. s.items.items };
}

impl EntryLines {
    /// The lines of this list.
    pub fn from_vec(items: Vec<EntryLine>) -> EntryLines
        ensures { result ≡ items.items }
    {
        EntryLines { items }
    }

    /// The list back.
    pub fn into_vec(self) -> Vec<EntryLine>
        ensures { result.items ≡ self }
    {
        self.items
    }

    /// The lines as a slice.
    pub fn as_slice(&self) -> &[EntryLine]
        ensures { result.now ≡ self.now }
    {
        &self.items
    }
}

/// The results of a tournament: a line per match, in the order of the matches, and a line per entry, in
/// the order of the entries.
#[derive(Drop)]
pub struct Totals {
    pub matches: MatchLines,
    pub entries: EntryLines,
}
