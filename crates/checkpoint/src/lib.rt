//! Checkpoints of rotas: the report of a rota, read again for the same matches. The first line that is
//! wrong is told, and what is wrong with it.
#![tactic(auto)]

mod expected;
mod fault;
mod laws;
mod marks;
mod matches;
mod reading;
mod rows;
mod scores;

pub use expected::ExpectedMatch;
pub use fault::{Fault, RotaError};
pub use laws::checkpoints_are_exact;
pub use reading::read_rows;
