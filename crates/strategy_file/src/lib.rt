//! Reads one strategy of a lab file: a memory-one vector, a finite machine, a lookup table or the name
//! of a plug. A machine's rows may stand in a file of their own, which is read here too.
#![tactic(auto)]

mod csv_read;
mod csv_rows;
mod draft;
mod entry;
mod file_name;
mod sheets;
mod toml_rows;

pub use csv_rows::read_machine_csv;
pub use draft::{Draft, MachineFile};
pub use entry::read_sheet;
pub use file_name::FileName;
