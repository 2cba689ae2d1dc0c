//! Strategies as they stand in a file.
ghost use Rattle.std.specs.Prelude.{◌≡◌};
ghost use Rattle.player_core.specs.State.{no_name};

use crate::Kind;
use history_model::Name;
use std::marker::Model;

/// One strategy as it stands in a file. What the numbers and lists mean is the kind's. Contracts see
/// a sheet as these numbers and lists.
///
/// - `MemoryOne`: `opening` has one weight of C, and `table` four, after CC, CD, DC and DD of (own
///   move, other's move). Weights are at most `den`, which is from 1 to 1000.
/// - `Machine`: `den` is 1, and there are 1 to 256 states, of which state 0 comes first. `opening` has
///   one weight, 1 for C and 0 for D. `table` and `next` have two numbers for each state, the first
///   for a heard C and the second for a heard D: the play, 1 or 0, and the state that follows.
/// - `Lookup`: the depth is the greatest of `own`, `other` and `first`, which are at most 4 each and
///   at most 8 together. `opening` has depth many weights, and `table` 2^(own + other + first).
/// - `Plug`: `den` is 1, and `plug` is the name.
///
/// What is not named here is 0 or empty, and `plug` is the name `-`.
#[derive(Drop)]
pub struct Sheet {
    pub kind: Kind,
    pub den: u32,
    pub own: u32,
    pub other: u32,
    pub first: u32,
    pub opening: Vec<u32>,
    pub table: Vec<u32>,
    pub next: Vec<u32>,
    pub plug: Name,
}

impl Model for Sheet {
    ghost use Rattle.player_core.specs.Sheet.{SheetData, IsSheet};

    ghost Value = { SheetData };

    ghost view = { λ s. record { kind = s.kind; den = s.den; own = s.own; other = s.other; first = s.first; opening = s.opening.items; table = s.table.items; next = s.next.items; plug = s.plug } };

    ghost invariant = { λ s. IsSheet (record { kind = s.kind; den = s.den; own = s.own; other = s.other; first = s.first; opening = s.opening.items; table = s.table.items; next = s.next.items; plug = s.plug }) };
}

impl Sheet {
    ghost use Rattle.player_core.specs.Sheet.{IsSheet};

    /// Every sheet is valid, by its type. The call does nothing: a caller learns the fact from it.
    pub fn shape(&self)
        ensures { IsSheet self.now }
    {
        let _den = self.den;
    }
}
