//! The states of a machine, numbered by first appearance.
ghost use Rattle.std.specs.Prelude.{◌≡◌, ℕ, ◌*◌, ◌≤◌, ◌<◌, nat_eq, Some, List, slice_index, slice_get, slice_set, slice_index_or, length, IfOk, OnOk};
ghost use Rattle.std.specs.List.{list_all};
ghost use Rattle.indexmap.specs.IndexSet.{insert_key, IsUnique};
ghost use Rattle.machine_rows.specs.declared.transition.Transition.{Transition};
ghost use Rattle.machine_rows.specs.Rows.{number_of, has_both, weights_of, exit_number, numbers_of};
ghost use Rattle.machine_rows.specs.declared.transition.Transition.{Transition};
ghost use Rattle.machine_rows.specs.RowsRead.{with_room, with_exit, no_exits, AreExits};

use crate::transition::{Exits, Transition, exit_weight, has_both, no_exits, with_exit};
use indexmap::IndexSet;
use std::alloc::{AllocError, Global};

/// The states of a machine in order of first appearance, and the exits of each.
#[derive(Drop)]
pub struct States {
    pub numbers: IndexSet<u32>,
    pub exits: Vec<Exits>,
}

impl States {
    /// Adds a state, if it is new, and tells its number.
    pub fn add(&mut self, state: u32) -> Result<usize, AllocError>
        ensures states { OnOk result (self.new.numbers.keys ≡ insert_key nat_eq self.old.numbers.keys state) }
        ensures exits { OnOk result (self.new.exits.items ≡ with_room self.old.numbers.keys self.old.exits.items state) }
        ensures place { IfOk result (λ place. slice_get self.new.numbers.keys place ≡ Some state) }
        ensures unique { IsUnique nat_eq self.new.numbers }
        ensures kept { OnOk result ((rows : List Transition) → AreExits rows self.old.numbers.keys self.old.exits.items → AreExits rows self.new.numbers.keys self.new.exits.items) }
    {
        let (place, added) = self.numbers.insert_full(state)?;
        if added {
            self.exits.push(no_exits())?;
        }
        Ok(place)
    }

    /// The exits of the state at a place.
    pub fn exits_at(&self, place: usize) -> Exits
        requires { place < length self.now.exits.items }
        ensures { slice_get self.now.exits.items place ≡ Some result }
    {
        self.exits[place]
    }

    /// Notes a row by which the state at a place is left.
    pub fn leave(&mut self, place: usize, row: Transition)
        requires { place < length self.old.exits.items }
        ensures exits { self.new.exits.items ≡ slice_set self.old.exits.items place (with_exit (slice_index_or self.old.exits.items place no_exits) row) }
        ensures states { self.new.numbers.keys ≡ self.old.numbers.keys }
    {
        let exits = with_exit(self.exits[place], row);
        self.exits[place] = exits;
    }

    /// The number of a state; 0 where it is none.
    pub fn number_of(&self, state: u32) -> usize
        requires { 0 < length self.now.numbers.keys }
        ensures value { result ≡ number_of self.now.numbers.keys state }
        ensures within { result < length self.now.numbers.keys }
    {
        match self.numbers.get_index_of(&state) {
            Some(number) => number,
            None => 0,
        }
    }

    /// Whether each state is left on hearing C and on hearing D.
    pub fn are_left(&self) -> bool
        ensures { result ≡ list_all has_both self.now.exits.items }
    {
        self.exits.iter().all(|exits| has_both(exits))
    }

    /// What is played from each state on hearing C and then on hearing D: 1 for C and 0 for D.
    pub fn weights(&self, alloc: Global) -> Result<Vec<u32>, AllocError>
        ensures value { IfOk result (λ weights. weights.items ≡ weights_of self.now.exits.items) }
        ensures whole { IfOk result (λ weights. length weights.items ≡ 2 * length self.now.exits.items) }
        ensures within { IfOk result (λ weights. (k : ℕ) → k < length weights.items → slice_index weights.items k ≤ 1) }
    {
        let mut weights = Vec::new(alloc);
        for exits in &self.exits {
            weights.push(exit_weight(exits.on_c))?;
            weights.push(exit_weight(exits.on_d))?;
        }
        Ok(weights)
    }

    fn exit_number(&self, exit: Option<Transition>) -> u32
        requires some { 0 < length self.now.numbers.keys }
        requires few { length self.now.numbers.keys ≤ 256 }
        ensures value { result ≡ exit_number self.now.numbers.keys exit }
        ensures within { result < length self.now.numbers.keys }
    {
        match exit {
            Some(row) => self.number_of(row.next) as u32,
            None => 0,
        }
    }

    /// The numbers of the states that follow on each state, on hearing C and then on hearing D.
    pub fn next_numbers(&self, alloc: Global) -> Result<Vec<u32>, AllocError>
        requires some { 0 < length self.now.numbers.keys }
        requires few { length self.now.numbers.keys ≤ 256 }
        ensures value { IfOk result (λ numbers. numbers.items ≡ numbers_of self.now.numbers.keys self.now.exits.items) }
        ensures whole { IfOk result (λ numbers. length numbers.items ≡ 2 * length self.now.exits.items) }
        ensures within { IfOk result (λ numbers. (k : ℕ) → k < length numbers.items → slice_index numbers.items k < length self.now.numbers.keys) }
    {
        let mut numbers = Vec::new(alloc);
        for exits in &self.exits {
            numbers.push(self.exit_number(exits.on_c))?;
            numbers.push(self.exit_number(exits.on_d))?;
        }
        Ok(numbers)
    }
}
