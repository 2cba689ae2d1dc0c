//! The rows of a machine, read one by one, and the sheet that they make.
ghost use Rattle.std.specs.Prelude.{◌≡◌, ◌+◌, ◌<◌, [], length, Some, IfOk};
ghost use Rattle.refusals.specs.Refusing.{Gives};
ghost use Rattle.machine_rows.specs.Rows.{with_row, finished};

use crate::sheet::machine_with;
use crate::states::States;
use crate::transition::{Transition, exit_on};
use history_model::Move;
use indexmap::IndexSet;
use player_core::Sheet;
use refusals::{FileError, Refusal};
use std::alloc::{AllocError, Global};
use std::marker::Model;

// A machine has at most so many states.
const MOST_STATES: usize = 256;

/// Right rows of a machine, in order: each leaves its state on its move first, and there are at most
/// 256 states. Contracts see the start and the rows.
#[derive(Drop)]
pub struct MachineRows {
    start: u32,
    rows: Vec<Transition>,
    states: States,
}

impl Model for MachineRows {
    ghost use Rattle.machine_rows.specs.RowsRead.{RowsRead, IsHeld};

    ghost Value = { RowsRead };

    ghost view = { λ s. record { start = s.start; rows = s.rows.items } };

    ghost invariant = { λ s. IsHeld s.start s.rows.items s.states.numbers.keys s.states.exits.items };
}

impl MachineRows {
    /// No rows yet, of a machine that starts in this state.
    pub fn new(alloc: Global, start: u32) -> Result<MachineRows, AllocError>
        ensures { IfOk result (λ read. read ≡ record { start = start; rows = [] }) }
    {
        let mut states = States {
            numbers: IndexSet::new(alloc),
            exits: Vec::new(alloc),
        };
        states.add(start)?;
        Ok(MachineRows {
            start,
            rows: Vec::new(alloc),
            states,
        })
    }

    /// The number of the row behind these, counted from 1.
    pub fn following(&self) -> u32
        ensures { result ≡ length self.now.rows + 1 }
    {
        self.rows.len() as u32 + 1
    }

    /// The rows with one more.
    ///
    /// # Errors
    ///
    /// `BadRows` where an earlier row leaves the same state on the same move, `TooManyRows` where there
    /// are more than 256 states now, and `NoMemory`.
    pub fn with(self, entry: u32, row: Transition) -> Result<MachineRows, FileError>
        ensures rows { Gives (λ read. read.rows) result (with_row entry self.start self.rows (Some row)) }
        ensures start { IfOk result (λ read. read.start ≡ self.start) }
    {
        let following = self.following();
        let MachineRows {
            start,
            mut rows,
            mut states,
        } = self;
        let place = states.add(row.state)?;
        if exit_on(&states.exits_at(place), row.heard).is_some() {
            return Err(FileError::Refused(Refusal::BadRows(entry, following)));
        }
        states.add(row.next)?;
        if states.numbers.len() > MOST_STATES {
            return Err(FileError::Refused(Refusal::TooManyRows(entry)));
        }
        states.leave(place, row);
        rows.push(row)?;
        Ok(MachineRows {
            start,
            rows,
            states,
        })
    }

    /// The sheet of the machine that has these rows and no more. States are numbered from 0 in order of
    /// first appearance: the start, then of each row the state and the next.
    ///
    /// # Errors
    ///
    /// `BadRows` at the row behind these where some state has no row for C or for D, and `NoMemory`.
    pub fn finish(&self, alloc: Global, entry: u32, opening: Move) -> Result<Sheet, FileError>
        ensures { Gives (λ sheet. sheet) result (finished entry self.now.start opening self.now.rows) }
    {
        if !self.states.are_left() {
            return Err(FileError::Refused(Refusal::BadRows(entry, self.following())));
        }
        let table = self.states.weights(alloc)?;
        let next = self.states.next_numbers(alloc)?;
        Ok(machine_with(alloc, opening, table, next)?)
    }
}
