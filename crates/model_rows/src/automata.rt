//! The game, the noises and the automata of these tests.
ghost use Rattle.std.specs.Prelude.{◌≡◌, IfOk};

use history_model::{Game, Grid, GridRow, Noise};
use std::alloc::{AllocError, Global};

pub(crate) const GAME: Game = Game {
    r: 3,
    s: 0,
    t: 5,
    p: 1,
};

pub(crate) const NOISY: Noise = Noise { n: 1, e: 10 };

pub(crate) const STILL: Noise = Noise { n: 0, e: 1 };

/// Repeats what the other showed last, and begins with C.
pub(crate) fn tit_for_tat(alloc: Global) -> Result<Grid, AllocError>
    ensures { IfOk result (λ grid. grid.den ≡ 1) }
{
    let cooperate = GridRow {
        weight: 1,
        next: [0, 1, 0, 1],
    };
    let defect = GridRow {
        weight: 0,
        next: [0, 1, 0, 1],
    };
    let rows = Vec::from_array(alloc, [cooperate, defect])?;
    Ok(Grid {
        den: 1,
        start: 0,
        rows,
    })
}

/// Shows C with the chance 3/4 after CC and DD, and 1/4 else.
pub(crate) fn win_stay(alloc: Global) -> Result<Grid, AllocError>
    ensures { IfOk result (λ grid. grid.den ≡ 4) }
{
    let stay = GridRow {
        weight: 3,
        next: [0, 1, 1, 0],
    };
    let shift = GridRow {
        weight: 1,
        next: [0, 1, 1, 0],
    };
    let rows = Vec::from_array(alloc, [stay, shift])?;
    Ok(Grid {
        den: 4,
        start: 1,
        rows,
    })
}

/// Always shows C.
pub(crate) fn cooperator(alloc: Global) -> Result<Grid, AllocError> {
    let row = GridRow {
        weight: 1,
        next: [0; 4],
    };
    Ok(Grid {
        den: 1,
        start: 0,
        rows: Vec::from_array(alloc, [row])?,
    })
}

/// Shows C with the chance 1/3, whatever was played.
pub(crate) fn one_in_three(alloc: Global) -> Result<Grid, AllocError> {
    let row = GridRow {
        weight: 1,
        next: [1, 2, 3, 4],
    };
    Ok(Grid {
        den: 3,
        start: 0,
        rows: Vec::from_array(alloc, [row; 5])?,
    })
}
