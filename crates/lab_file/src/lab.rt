//! A lab and its entries.
ghost use Rattle.std.specs.Prelude.{◌≡◌, ◌↔◌, ◌<◌, ◌+◌, [], length, IsTrue, Ok, Some, slice_get, IfErr, OnErr, OnOk};
ghost use Rattle.refusals.specs.Refusing.{IsErrorOf};
ghost use Rattle.lab_file.specs.Lab.{IsLab, entry_at};
ghost use Rattle.lab_file.specs.Attached.{attached, set_draft};

use crate::Jobs;
use history_model::{Game, Name, Noise};
use refusals::FileError;
use std::alloc::Global;
use std::marker::Model;
use strategy_file::{Draft, read_machine_csv};

/// A strategy by name.
#[derive(Drop)]
pub struct Entry {
    /// No other entry of the lab has this name.
    pub name: Name,
    /// The sheet, or the file that it comes from.
    pub draft: Draft,
    /// The noise of its moves.
    pub noise: Noise,
}

/// The entries of a lab, in file order. Contracts see them as their list.
#[derive(Drop)]
pub struct Entries {
    items: Vec<Entry>,
}

impl Model for Entries {
    ghost use Rattle.std.specs.Prelude.{List};
    ghost use Rattle.lab_file.specs.declared.lab.Entry.{Entry};

    ghost Value = { List Entry };

    ghost view = { λ s. s.items.items };
}

impl Entries {
    /// The entries of this list.
    pub fn from_vec(items: Vec<Entry>) -> Entries
        ensures { result ≡ items.items }
    {
        Entries { items }
    }

    /// The number of entries.
    pub fn len(&self) -> usize
        ensures { result ≡ length self.now }
    {
        self.items.len()
    }

    /// There is no entry.
    pub fn is_empty(&self) -> bool
        ensures { IsTrue result ↔ (self.now ≡ []) }
    {
        self.items.is_empty()
    }

    /// The entries as a slice.
    pub fn as_slice(&self) -> &[Entry]
        ensures { result.now ≡ self.now }
    {
        &self.items
    }

    /// The entry at a place, counted from 0.
    pub fn at(&self, place: usize) -> &Entry
        requires { place < length self.now }
        ensures { result.now ≡ entry_at self.now place }
    {
        &self.items[place]
    }

    /// Gives the entry at a place another draft.
    fn set_draft(&mut self, place: usize, draft: Draft)
        requires { place < length self.old }
        ensures { self.new ≡ set_draft self.old place draft }
    {
        self.items[place].draft = draft;
    }
}

/// What a lab file stands for. It is valid by its type: it has 1 to 64 entries of different names, and
/// each job is one of these entries, within the ranges of its keys; in version 1 no payoff was raised,
/// and each entry has the lab's noise.
#[derive(Drop)]
pub struct Lab {
    /// The version of the file, 1 or 2.
    pub version: u32,
    /// What was added to each payoff of the file, so that none is below 0: from 0 to 1,000,000, and
    /// 0 in version 1.
    pub offset: u32,
    /// The payoffs with the offset, each from 0 to 1,000,000.
    pub game: Game,
    /// The noise of the lab: in version 1 that of every entry.
    pub noise: Noise,
    /// 1 to 64 entries, in file order.
    pub entries: Entries,
    /// The jobs that stand in the file.
    pub jobs: Jobs,
}

impl Model for Lab {
    ghost use Rattle.lab_file.specs.Lab.{LabData, IsLab};

    ghost Value = { LabData };

    ghost view = { λ s. record { version = s.version; offset = s.offset; game = s.game; noise = s.noise; entries = s.entries; jobs = s.jobs } };

    ghost invariant = { λ s. IsLab (record { version = s.version; offset = s.offset; game = s.game; noise = s.noise; entries = s.entries; jobs = s.jobs }) };
}

impl Lab {
    /// Every lab is valid, by its type. The call does nothing: a caller learns the fact from it.
    pub fn shape(&self)
        ensures { IsLab self.now }
    {
        let _version = self.version;
    }

    /// Gives the entry at a place, counted from 0, the rows that stand in these bytes of its file. An
    /// entry that needs no file stays as it is.
    ///
    /// # Errors
    ///
    /// What `read_machine_csv` refuses, with the entry's number, which is its place and 1; and
    /// `NoMemory`. The lab stays as it was.
    pub fn attach(&mut self, alloc: Global, entry: u32, bytes: &[u8]) -> Result<(), FileError>
        requires { entry < length self.old.entries }
        ensures attached { OnOk result (attached self.old entry bytes.now ≡ Ok self.new) }
        ensures refused { IfErr result (IsErrorOf (attached self.old entry bytes.now)) }
        ensures unchanged { OnErr result (self.new ≡ self.old) }
    {
        let place = entry as usize;
        if let Draft::FromFile(machine) = &self.entries.at(place).draft {
            let sheet = read_machine_csv(alloc, bytes, entry + 1, machine)?;
            self.entries.set_draft(place, Draft::Ready(sheet));
        }
        Ok(())
    }
}
