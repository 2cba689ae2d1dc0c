//! What a library was asked for, as contracts see it.
ghost use Rattle.std.specs.Prelude.{◌≡◌, ℕ, List, [], ◌∷◌, ◌++◌};
ghost use base.Fml.{ftrue};

use std::fmt;
use std::fmt::{Debug, Formatter, Write};
use std::marker::{Model, PhantomData};

/// The names that a library was asked for, in order. Only contracts see them: it takes no bytes,
/// and nothing is done where a name is added. So it binds code that is generic over a library, and
/// says nothing of what the system was asked.
#[derive(Drop)]
pub struct AskedNames {
    marker: PhantomData<()>,
    pub ghost names: { List (List ℕ) },
}

impl Model for AskedNames {
    ghost also_owns = { λ _. ftrue };
}

impl AskedNames {
    /// No name was asked for.
    pub fn none() -> AskedNames
        ensures { result.names ≡ [] }
    {
        AskedNames {
            marker: PhantomData,
        }
    }

    /// These names, and then this one.
    pub fn and(&self, name: &str) -> AskedNames
        ensures { result.names ≡ self.now.names ++ name.now ∷ [] }
    {
        AskedNames {
            marker: PhantomData,
        }
    }
}

impl Debug for AskedNames {
    fn fmt<W: Write>(&self, f: &mut Formatter<W>) -> fmt::Result {
        f.write_str("AskedNames")
    }
}
