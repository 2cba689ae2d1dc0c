//! Why the program refuses the files and words that it is given: each refusal with its number, its name and
//! its place, and the line that tells it. It has every table, key and refusal of the lab file once, also of
//! commands that are still to come, so that the crates above need no new word.
#![tactic(auto)]

mod line;
mod piece;
mod place;
mod refusal;

pub use line::refusal_line;
pub use piece::Piece;
pub use place::{KeyName, Place, TableName};
pub use refusal::{FileError, FileRole, Refusal, RowCause};
