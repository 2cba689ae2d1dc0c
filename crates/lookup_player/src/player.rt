//! The player of lookup tables.
use crate::rows::write_rows;
use history_model::GridRow;
use player_core::{Front, Kind, Sheet, SheetPlayer, SheetRows};

/// A player of lookup tables, as the Axelrod library's lookerup players are.
pub type LookupPlayer = SheetPlayer<TableRows>;

/// Lookup tables as rows.
#[derive(Drop)]
pub struct TableRows;

impl SheetRows for TableRows {
    ghost use Rattle.player_core.specs.declared.kind.Kind.TheVariants.{Lookup};

    ghost kind = { Lookup };

    fn kind() -> Kind {
        Kind::Lookup
    }

    fn write(table: &mut Vec<GridRow>, sheet: &Sheet) -> Front {
        let rows = write_rows(table, sheet);
        Front {
            den: sheet.den,
            start: 0,
            rows,
        }
    }
}
