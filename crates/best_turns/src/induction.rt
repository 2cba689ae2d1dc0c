//! The backward induction, a turn at a time.
ghost use Rattle.std.specs.Prelude.{◌≡◌, ◌+◌, ◌*◌, ◌^◌, ◌≤◌, ◌<◌, ◌++◌, ◌∷◌, [], pos, length, IfOk, OnOk};
ghost use Rattle.strategy_trees.specs.Contest.{rows};
ghost use Rattle.best_turns.specs.Meeting.{contest_of, IsPrepared};
ghost use Rattle.best_turns.specs.Rounded.{AreFound, HasLayer};

use crate::meeting::Prepared;
use crate::worth::{Cell, cell_of};
use history_model::{Move, NoMemory};
use std::alloc::Global;

/// The numbers of all rows with one number of turns left.
#[derive(Drop)]
pub struct Layer {
    pub uppers: Vec<u128>,
    pub lowers: Vec<u128>,
}

/// The tables of a response, as far as they are found.
#[derive(Drop)]
pub struct Found {
    pub uppers: Vec<i128>,
    pub lowers: Vec<i128>,
    pub moves: Vec<Move>,
}

// A layer of zeros.
fn no_turns(alloc: Global, prepared: &Prepared) -> Result<Layer, NoMemory>
    requires { IsPrepared prepared.now }
    ensures { IfOk result (HasLayer (contest_of prepared.now) 0 (rows (contest_of prepared.now))) }
{
    let rows = prepared.stances.len();
    Ok(Layer {
        uppers: vec![in alloc; 0; rows]?,
        lowers: vec![in alloc; 0; rows]?,
    })
}

// A cell more.
fn add_cell(found: &mut Found, cell: &Cell) -> Result<(), NoMemory>
    requires upper { cell.now.upper ≤ 10 ^ 22 }
    requires lower { cell.now.lower ≤ 10 ^ 22 }
    ensures uppers { OnOk result (found.new.uppers.items ≡ found.old.uppers.items ++ pos cell.now.upper ∷ []) }
    ensures lowers { OnOk result (found.new.lowers.items ≡ found.old.lowers.items ++ pos cell.now.lower ∷ []) }
    ensures moves { OnOk result (found.new.moves.items ≡ found.old.moves.items ++ cell.now.by ∷ []) }
{
    found.uppers.push(cell.upper as i128)?;
    found.lowers.push(cell.lower as i128)?;
    found.moves.push(cell.by)?;
    Ok(())
}

// A turn more: `t` turns left are found.
fn add_turn(
    prepared: &Prepared,
    below: &Layer,
    above: &mut Layer,
    found: &mut Found,
    t: u32,
) -> Result<(), NoMemory>
    requires prepared { IsPrepared prepared.now }
    requires few { t < 2000 }
    requires below { HasLayer (contest_of prepared.now) t (rows (contest_of prepared.now)) below.now }
    requires high { length above.old.uppers.items ≡ rows (contest_of prepared.now) }
    requires low { length above.old.lowers.items ≡ rows (contest_of prepared.now) }
    requires found { AreFound (contest_of prepared.now) (t * rows (contest_of prepared.now)) found.old }
    ensures above { OnOk result (HasLayer (contest_of prepared.now) (t + 1) (rows (contest_of prepared.now)) above.new) }
    ensures found { OnOk result (AreFound (contest_of prepared.now) ((t + 1) * rows (contest_of prepared.now)) found.new) }
{
    for row in 0..prepared.stances.len() {
        let cell = cell_of(prepared, &below.uppers, &below.lowers, row);
        above.uppers[row] = cell.upper;
        above.lowers[row] = cell.lower;
        add_cell(found, &cell)?;
    }
    Ok(())
}

/// The tables of all turns.
pub fn find(alloc: Global, prepared: &Prepared, turns: u32) -> Result<Found, NoMemory>
    requires prepared { IsPrepared prepared.now }
    requires few { turns ≤ 2000 }
    ensures { IfOk result (AreFound (contest_of prepared.now) (turns * rows (contest_of prepared.now))) }
{
    let cells = prepared.stances.len() * turns as usize;
    let mut found = Found {
        uppers: Vec::with_capacity(alloc, cells)?,
        lowers: Vec::with_capacity(alloc, cells)?,
        moves: Vec::with_capacity(alloc, cells)?,
    };
    let mut below = no_turns(alloc, prepared)?;
    let mut above = no_turns(alloc, prepared)?;
    for t in 0..turns {
        add_turn(prepared, &below, &mut above, &mut found, t)?;
        std::mem::swap(&mut below, &mut above);
    }
    Ok(found)
}
