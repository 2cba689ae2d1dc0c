//! Names of a report, and their places.
ghost use Rattle.std.specs.Prelude.{◌≡◌, ◌<◌, ◌^◌, ◌-◌, ◌++◌, ◌∷◌, ◌&&◌, ◌||◌, nat_lt, bytes_eq, [], length, IfOk, OnErr, OnOk};
ghost use Rattle.report_names.specs.Names.{both_come, comes, is_among, name_at, place_in, with_name};

use history_model::Name;
use std::alloc::{AllocFailed, Global};
use std::marker::Model;

/// Names, in order. Contracts see them as their list.
#[derive(Drop)]
pub struct Names {
    items: Vec<Name>,
}

impl Model for Names {
    ghost use Rattle.std.specs.Prelude.{ℕ, List};

    ghost Value = { List (List ℕ) };

    ghost view = { λ s. s.items.items };
}

impl Names {
    /// The names of this list.
    pub fn from_vec(items: Vec<Name>) -> Names
        ensures { result ≡ items.items }
    {
        Names { items }
    }

    /// The list back.
    pub fn into_vec(self) -> Vec<Name>
        ensures { result.items ≡ self }
    {
        self.items
    }

    /// The names as a slice.
    pub fn as_slice(&self) -> &[Name]
        ensures { result.now ≡ self.now }
    {
        &self.items
    }

    /// No names yet.
    pub fn new(alloc: Global) -> Names
        ensures { result ≡ [] }
    {
        Names {
            items: Vec::new(alloc),
        }
    }

    // Adds a name behind the others.
    fn push(&mut self, name: &Name) -> Result<(), AllocFailed<Name>>
        ensures added { OnOk result (self.new ≡ self.old ++ name.now ∷ []) }
        ensures kept { OnErr result (self.new ≡ self.old) }
    {
        self.items.push(*name)
    }

    /// The name at a place.
    pub fn at(&self, place: u32) -> &Name
        requires { place < length self.now }
        ensures { result.now ≡ name_at self.now place }
    {
        &self.items[place as usize]
    }

    /// Whether a name is one of them.
    pub fn has(&self, name: &Name) -> bool
        ensures { result ≡ is_among name.now self.now }
    {
        self.items.iter().any(|other| other.bytes() == name.bytes())
    }

    // Whether a name stands at a place.
    fn stands_at(&self, place: usize, name: &Name) -> bool
        ensures { result ≡ (nat_lt place (length self.now) && bytes_eq (name_at self.now place) name.now) }
    {
        place < self.items.len() && self.items[place].bytes() == name.bytes()
    }

    /// Whether a name is one of those that were shown, or the next of these behind them.
    pub fn comes(&self, shown: &Names, name: &Name) -> bool
        ensures { result ≡ comes self.now shown.now name.now }
    {
        shown.has(name) || self.stands_at(shown.items.len(), name)
    }

    /// The same of two names, of which the second is shown behind the first.
    #[tactic(auto, using(crate::proofs::Coming::both_old, crate::proofs::Coming::both_new))]
    pub fn both_come(&self, shown: &Names, first: &Name, second: &Name) -> bool
        ensures { result ≡ both_come self.now shown.now first.now second.now }
    {
        let count = shown.items.len();
        let next = if shown.has(first) { count } else { count + 1 };
        let is_old = shown.has(second) || first.bytes() == second.bytes();
        self.comes(shown, first) && (is_old || self.stands_at(next, second))
    }

    /// The place of a name, which comes behind the others where it is new.
    ///
    /// # Errors
    ///
    /// `AllocFailed` alone. Then the names stay.
    #[tactic(auto, using(crate::proofs::PlaceLaws::with_old, crate::proofs::PlaceLaws::with_new, crate::proofs::PlaceLaws::place_new, crate::proofs::PlaceLaws::place_le))]
    pub fn place(&mut self, name: &Name) -> Result<u32, AllocFailed<Name>>
        requires room { length self.old < 2 ^ 32 - 1 }
        ensures place { IfOk result (λ place. place ≡ place_in self.new name.now) }
        ensures before { IfOk result (λ place. place ≡ place_in self.old name.now) }
        ensures names { OnOk result (self.new ≡ with_name self.old name.now) }
        ensures kept { OnErr result (self.new ≡ self.old) }
    {
        let place = place_in(&self.items, name);
        if (place as usize) < self.items.len() {
            return Ok(place);
        }
        self.push(name)?;
        Ok(place)
    }
}

/// The place of a name; behind all where it isn't one of them.
pub fn place_in(names: &[Name], name: &Name) -> u32
    requires { length names.now < 2 ^ 32 - 1 }
    ensures { result ≡ place_in names.now name.now }
{
    let mut place: u32 = 0;
    for other in names {
        if other.bytes() == name.bytes() {
            return place;
        }
        place += 1;
    }
    place
}
