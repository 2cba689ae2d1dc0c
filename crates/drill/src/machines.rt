//! The machines that are drawn from a number.
ghost use Rattle.std.specs.Prelude.{◌≡◌, length, IfOk, OnOk};
ghost use Rattle.std.specs.List.{All};
ghost use Rattle.player_core.specs.declared.kind.Kind.TheVariants.{Machine};
ghost use Rattle.player_core.specs.Sheet.{IsSheet, IsMachine};
ghost use Rattle.drill.specs.Drill.{draw, drill_sheet, drill_sheets, machine_with};

use crate::draws::Draws;
use history_model::NoMemory;
use player_core::{Kind, Sheet, no_name};
use std::alloc::Global;

// A drill has so many machines.
const MACHINES: u32 = 64;

// Each has 16 states, and each state an entry for heard C and one for heard D.
const ENTRIES: u32 = 32;

/// The drill of a number: its 64 machines, in order.
///
/// The machines are drawn from the number one after the other, by a linear congruential generator
/// modulo 2^64 with the constants of Knuth's MMIX. A move is C where the top bit of its draw is 0, and
/// a state of a machine is the four highest bits of its draw. Each machine has 16 states and starts in
/// state 0. First its opening is drawn. Then for each state, for heard C and then for heard D, the next
/// state is drawn and then the play.
///
/// # Errors
///
/// `NoMemory` alone.
pub fn drill_sheets(alloc: Global, number: u64) -> Result<Vec<Sheet>, NoMemory>
    ensures sheets { IfOk result (λ sheets. sheets.items ≡ drill_sheets number) }
    ensures many { IfOk result (λ sheets. length sheets.items ≡ 64) }
    ensures machines { IfOk result (λ sheets. All (λ sheet. sheet.kind ≡ Machine) sheets.items) }
    ensures valid { IfOk result (λ sheets. All IsSheet sheets.items) }
{
    let mut draws = Draws { state: number };
    let mut sheets = Vec::new(alloc);
    for _machine in 0..MACHINES {
        sheets.push(draw_machine(alloc, &mut draws)?)?;
    }
    Ok(sheets)
}

// Draws a machine.
fn draw_machine(alloc: Global, draws: &mut Draws) -> Result<Sheet, NoMemory>
    ensures sheet { IfOk result (λ sheet. sheet ≡ drill_sheet draws.old.state 0) }
    ensures moved { OnOk result (draws.new.state ≡ draw draws.old.state 64) }
{
    let opening = draws.draw_move();
    let mut table = Vec::new(alloc);
    let mut next = Vec::new(alloc);
    for _entry in 0..ENTRIES {
        next.push(draws.draw_state())?;
        table.push(draws.draw_move())?;
    }
    machine_with(alloc, opening, table, next)
}

// The sheet of a machine with this opening, these plays and these nexts.
fn machine_with(
    alloc: Global,
    opening: u32,
    table: Vec<u32>,
    next: Vec<u32>,
) -> Result<Sheet, NoMemory>
    requires { IsMachine (machine_with opening table.items next.items) }
    ensures { IfOk result (λ sheet. sheet ≡ machine_with opening table.items next.items) }
{
    Ok(Sheet {
        kind: Kind::Machine,
        den: 1,
        own: 0,
        other: 0,
        first: 0,
        opening: vec![in alloc; opening]?,
        table,
        next,
        plug: no_name(),
    })
}
