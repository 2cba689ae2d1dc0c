//! The lines of a tournament that were read so far.
ghost use Rattle.std.specs.Prelude.{◌≡◌, ◌++◌, ◌∷◌, [], IfOk};

use crate::Places;
use history_model::NoMemory;
use result_lines::{EntryLine, EntryLines, MatchLine, MatchLines};
use std::alloc::Global;

/// Matches, and the lines of the entries that `who` names.
#[derive(Drop)]
pub(crate) struct Table {
    pub matches: MatchLines,
    pub who: Places,
    pub entries: EntryLines,
}

impl Table {
    /// No lines.
    pub(crate) fn new(alloc: Global) -> Table
        ensures { result ≡ record { matches = []; who = []; entries = [] } }
    {
        Table {
            matches: MatchLines::from_vec(Vec::new(alloc)),
            who: Places::from_vec(Vec::new(alloc)),
            entries: EntryLines::from_vec(Vec::new(alloc)),
        }
    }

    /// Adds a match behind the others.
    pub(crate) fn with_match(self, line: MatchLine) -> Result<Table, NoMemory>
        ensures { IfOk result (λ table. table ≡ record { matches = self.matches ++ line ∷ []; who = self.who; entries = self.entries }) }
    {
        let mut matches = self.matches.into_vec();
        matches.push(line)?;
        Ok(Table {
            matches: MatchLines::from_vec(matches),
            who: self.who,
            entries: self.entries,
        })
    }

    /// Adds the line of the entry at a place behind the others.
    pub(crate) fn with_entry(self, place: u32, entry: EntryLine) -> Result<Table, NoMemory>
        ensures { IfOk result (λ table. table ≡ record { matches = self.matches; who = self.who ++ place ∷ []; entries = self.entries ++ entry ∷ [] }) }
    {
        let who = self.who.with(place)?;
        let mut entries = self.entries.into_vec();
        entries.push(entry)?;
        Ok(Table {
            matches: self.matches,
            who,
            entries: EntryLines::from_vec(entries),
        })
    }
}
