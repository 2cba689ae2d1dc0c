//! The sheet of a finite machine, from its lists.
ghost use Rattle.std.specs.Prelude.{◌≡◌, ◌≤◌, IfOk};
ghost use Rattle.player_core.specs.Sheet.{IsMachine};
ghost use Rattle.machine_rows.specs.MachineSheet.{weight_of, machine_with};

use history_model::Move;
use player_core::{Kind, Sheet, no_name};
use std::alloc::{AllocError, Global};

/// 1 for C and 0 for D.
pub fn weight_of(play: Move) -> u32
    ensures value { result ≡ weight_of play }
    ensures within { result ≤ 1 }
{
    match play {
        Move::C => 1,
        Move::D => 0,
    }
}

/// The sheet of a finite machine: what it plays first, and what it plays and where it goes from each
/// state on hearing C and then on hearing D.
pub fn machine_with(
    alloc: Global,
    opening: Move,
    table: Vec<u32>,
    next: Vec<u32>,
) -> Result<Sheet, AllocError>
    requires { IsMachine (machine_with opening table.items next.items) }
    ensures { IfOk result (λ sheet. sheet ≡ machine_with opening table.items next.items) }
{
    Ok(Sheet {
        kind: Kind::Machine,
        den: 1,
        own: 0,
        other: 0,
        first: 0,
        opening: vec![in alloc; weight_of(opening)]?,
        table,
        next,
        plug: no_name(),
    })
}
