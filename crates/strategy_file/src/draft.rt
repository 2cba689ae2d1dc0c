//! What an entry of a lab file stands for.
use crate::FileName;
use history_model::Move;
use player_core::Sheet;

/// A strategy of a lab file: its sheet, or a machine whose rows stand in a file of their own.
#[derive(Drop)]
pub enum Draft {
    /// The sheet.
    Ready(Sheet),
    /// A machine whose rows are still to be read.
    FromFile(MachineFile),
}

/// A machine whose rows stand in a file of their own.
#[derive(Drop)]
pub struct MachineFile {
    /// The file.
    pub file: FileName,
    /// The state in which the machine starts, from 0 to 65535.
    pub start: u32,
    /// The first move.
    pub opening: Move,
}
