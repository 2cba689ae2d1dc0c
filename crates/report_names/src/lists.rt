//! Lists of a report.
ghost use Rattle.std.specs.Prelude.{◌≡◌, ◌++◌, ◌∷◌, [], IfOk};
ghost use Rattle.report_names.specs.Places.{are_listed, is_listed};

use history_model::Noise;
use std::alloc::AllocFailed;
use std::marker::Model;

/// Places in names, in order. Contracts see them as their list.
#[derive(Drop)]
pub struct Places {
    items: Vec<u32>,
}

impl Model for Places {
    ghost use Rattle.std.specs.Prelude.{ℕ, List};

    ghost Value = { List ℕ };

    ghost view = { λ s. s.items.items };
}

impl Places {
    /// The places of this list.
    pub fn from_vec(items: Vec<u32>) -> Places
        ensures { result ≡ items.items }
    {
        Places { items }
    }

    /// The list back.
    pub fn into_vec(self) -> Vec<u32>
        ensures { result.items ≡ self }
    {
        self.items
    }

    /// The places as a slice.
    pub fn as_slice(&self) -> &[u32]
        ensures { result.now ≡ self.now }
    {
        &self.items
    }

    /// Whether a place is one of them.
    pub fn has(&self, place: u32) -> bool
        ensures { result ≡ is_listed self.now place }
    {
        self.items.contains(&place)
    }

    /// Whether each place below a count is one of them.
    pub fn has_all(&self, count: u32) -> bool
        ensures { result ≡ are_listed count self.now }
    {
        (0..count).all(|place| self.has(place))
    }

    /// The places with one more behind them.
    ///
    /// # Errors
    ///
    /// `AllocFailed` alone.
    pub fn with(self, place: u32) -> Result<Places, AllocFailed<u32>>
        ensures { IfOk result (λ more. more ≡ self ++ place ∷ []) }
    {
        let mut items = self.items;
        items.push(place)?;
        Ok(Places { items })
    }
}

/// Machines of the first rank, by their places in names, each with its total in units of 10^-12.
/// Contracts see them as their list.
#[derive(Drop)]
pub struct Leaders {
    items: Vec<(u32, i128)>,
}

impl Model for Leaders {
    ghost use Rattle.std.specs.Prelude.{ℕ, ℤ, List};

    ghost Value = { List (ℕ × ℤ) };

    ghost view = { λ s. s.items.items };
}

impl Leaders {
    /// The machines of this list.
    pub fn from_vec(items: Vec<(u32, i128)>) -> Leaders
        ensures { result ≡ items.items }
    {
        Leaders { items }
    }

    /// The list back.
    pub fn into_vec(self) -> Vec<(u32, i128)>
        ensures { result.items ≡ self }
    {
        self.items
    }

    /// The machines as a slice.
    pub fn as_slice(&self) -> &[(u32, i128)]
        ensures { result.now ≡ self.now }
    {
        &self.items
    }

    /// The machines with one more behind them: its place, and its total in units of 10^-12.
    ///
    /// # Errors
    ///
    /// `AllocFailed` alone.
    pub fn with(self, place: u32, total: i128) -> Result<Leaders, AllocFailed<(u32, i128)>>
        ensures { IfOk result (λ more. more ≡ self ++ (place, total) ∷ []) }
    {
        let mut items = self.items;
        items.push((place, total))?;
        Ok(Leaders { items })
    }
}

/// Noises, in order. Contracts see them as their list.
#[derive(Drop)]
pub struct Noises {
    items: Vec<Noise>,
}

impl Model for Noises {
    ghost use Rattle.std.specs.Prelude.{List};
    ghost use Rattle.history_model.specs.Noise.{FlipRate};

    ghost Value = { List FlipRate };

    ghost view = { λ s. s.items.items };
}

impl Noises {
    /// The noises of this list.
    pub fn from_vec(items: Vec<Noise>) -> Noises
        ensures { result ≡ items.items }
    {
        Noises { items }
    }

    /// The list back.
    pub fn into_vec(self) -> Vec<Noise>
        ensures { result.items ≡ self }
    {
        self.items
    }

    /// The noises as a slice.
    pub fn as_slice(&self) -> &[Noise]
        ensures { result.now ≡ self.now }
    {
        &self.items
    }
}
