//! The player of vectors.
ghost use Rattle.std.specs.Prelude.{◌≡◌, ◌<◌, length, map, take};
ghost use Rattle.history_model.specs.Automaton.{IsAutomaton, plain_row, row_at};
ghost use Rattle.player_core.specs.AutomatonOf.{vector_automaton};

use history_model::GridRow;
use player_core::laws::rows_are_held;
use player_core::{Front, Kind, ROOM, Sheet, SheetPlayer, SheetRows};

// One for the start, and one for each last play.
const VECTOR_ROWS: u32 = 5;

/// A player of memory-one vectors, as the Axelrod library's memory-one players are.
pub type MemoryPlayer = SheetPlayer<VectorRows>;

/// Memory-one vectors as rows.
#[derive(Drop)]
pub struct VectorRows;

impl SheetRows for VectorRows {
    ghost use Rattle.player_core.specs.declared.kind.Kind.TheVariants.{MemoryOne};

    ghost kind = { MemoryOne };

    fn kind() -> Kind {
        Kind::MemoryOne
    }

    fn write(table: &mut Vec<GridRow>, sheet: &Sheet) -> Front {
        write_rows(table, sheet);
        Front {
            den: sheet.den,
            start: 0,
            rows: VECTOR_ROWS,
        }
    }
}

// The row of a vector's automaton at a place.
fn row_of(sheet: &Sheet, place: usize) -> GridRow
    requires vector { sheet.now.kind ≡ Kind.MemoryOne }
    requires inside { place < VECTOR_ROWS }
    ensures { plain_row result ≡ row_at (vector_automaton sheet.now) place }
{
    let weight = if place == 0 {
        sheet.opening[0]
    } else {
        sheet.table[place - 1]
    };
    GridRow {
        weight,
        next: [1, 2, 3, 4],
    }
}

// Writes the rows of a vector's automaton over the first of the table.
fn write_rows(table: &mut Vec<GridRow>, sheet: &Sheet)
    requires vector { sheet.now.kind ≡ Kind.MemoryOne }
    requires room { length table.old.items ≡ ROOM }
    ensures room { length table.new.items ≡ ROOM }
    ensures rows { map plain_row (take VECTOR_ROWS table.new.items) ≡ (vector_automaton sheet.now).rows }
    ensures valid { IsAutomaton (vector_automaton sheet.now) }
{
    rows_are_held();
    sheet.shape();
    for place in 0..VECTOR_ROWS as usize {
        table[place] = row_of(sheet, place);
    }
}
