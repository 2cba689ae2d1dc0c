//! The player of machines.
ghost use Rattle.std.specs.Prelude.{◌≡◌, ◌<◌, ◌≤◌, ◌*◌, length, map, take};
ghost use Rattle.history_model.specs.Automaton.{IsAutomaton, plain_row};
ghost use Rattle.player_core.specs.AutomatonOf.{entered, machine_automaton, machine_place, machine_row};
ghost use Rattle.player_core.specs.Sheet.{IsMachine, states};

use history_model::GridRow;
use player_core::laws::rows_are_held;
use player_core::{Front, Kind, ROOM, Sheet, SheetPlayer, SheetRows};

/// A player of finite machines, as the Axelrod library's finite state machines are.
pub type MachinePlayer = SheetPlayer<MachineRows>;

/// Finite machines as rows.
#[derive(Drop)]
pub struct MachineRows;

impl SheetRows for MachineRows {
    ghost use Rattle.player_core.specs.declared.kind.Kind.TheVariants.{Machine};

    ghost kind = { Machine };

    fn kind() -> Kind {
        Kind::Machine
    }

    fn write(table: &mut Vec<GridRow>, sheet: &Sheet) -> Front {
        let rows = write_rows(table, sheet);
        Front {
            den: 1,
            start: row_place(0, sheet.opening[0]),
            rows,
        }
    }
}

// The row of a state that is about to play, 1 for C and 0 for D.
fn row_place(state: u32, weight: u32) -> u32
    requires state { state < 256 }
    requires weight { weight ≤ 1 }
    ensures { result ≡ machine_place state weight }
{
    2 * state + (1 - weight)
}

// The row that an entry of a machine leads to: its next state, about to make its play.
fn entered(sheet: &Sheet, place: usize) -> u32
    requires machine { sheet.now.kind ≡ Kind.Machine }
    requires inside { place < length sheet.now.next }
    ensures { result ≡ entered sheet.now place }
{
    row_place(sheet.next[place], sheet.table[place])
}

// The row of a machine's automaton at a place. It goes by what was heard alone.
fn row_of(sheet: &Sheet, row: usize) -> GridRow
    requires machine { sheet.now.kind ≡ Kind.Machine }
    requires inside { row < 2 * states sheet.now }
    ensures { plain_row result ≡ machine_row sheet.now row }
{
    let state = row / 2;
    let after_c = entered(sheet, 2 * state);
    let after_d = entered(sheet, 2 * state + 1);
    GridRow {
        weight: 1 - (row % 2) as u32,
        next: [after_c, after_d, after_c, after_d],
    }
}

// The number of rows of a machine's automaton: two for each state.
fn row_count(sheet: &Sheet) -> u32
    requires machine { sheet.now.kind ≡ Kind.Machine }
    ensures value { result ≡ 2 * states sheet.now }
    ensures valid { IsMachine sheet.now }
{
    sheet.next.len() as u32
}

// Writes the rows of a machine's automaton over the first of the table, and tells how many.
fn write_rows(table: &mut Vec<GridRow>, sheet: &Sheet) -> u32
    requires machine { sheet.now.kind ≡ Kind.Machine }
    requires room { length table.old.items ≡ ROOM }
    ensures value { result ≡ 2 * states sheet.now }
    ensures room { length table.new.items ≡ ROOM }
    ensures rows { map plain_row (take result table.new.items) ≡ (machine_automaton sheet.now).rows }
    ensures valid { IsAutomaton (machine_automaton sheet.now) }
{
    rows_are_held();
    let rows = row_count(sheet);
    for row in 0..rows as usize {
        table[row] = row_of(sheet, row);
    }
    rows
}
