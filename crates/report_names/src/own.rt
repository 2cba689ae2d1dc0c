//! The noise of single names.
ghost use Rattle.std.specs.Prelude.{◌≡◌, ◌++◌, ◌∷◌, [], IfOk};

use crate::{Names, Noises};
use history_model::{Name, NoMemory, Noise};
use std::alloc::Global;

/// Names that have a noise of their own, and the noise of each.
#[derive(Drop)]
pub struct OwnNoises {
    pub names: Names,
    pub noises: Noises,
}

impl OwnNoises {
    /// No names yet.
    pub fn new(alloc: Global) -> OwnNoises
        ensures { result ≡ record { names = []; noises = [] } }
    {
        OwnNoises {
            names: Names::new(alloc),
            noises: Noises::from_vec(Vec::new(alloc)),
        }
    }

    /// The names with one more behind them, which has this noise.
    ///
    /// # Errors
    ///
    /// `NoMemory` alone.
    pub fn with(self, name: &Name, noise: Noise) -> Result<OwnNoises, NoMemory>
        ensures { IfOk result (λ more. more ≡ record { names = self.names ++ name.now ∷ []; noises = self.noises ++ noise ∷ [] }) }
    {
        let mut names = self.names.into_vec();
        let mut noises = self.noises.into_vec();
        names.push(*name)?;
        noises.push(noise)?;
        Ok(OwnNoises {
            names: Names::from_vec(names),
            noises: Noises::from_vec(noises),
        })
    }
}
