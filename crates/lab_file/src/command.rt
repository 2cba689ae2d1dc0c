//! The commands that need a lab.

/// A command that needs a lab, by its word.
#[derive(Clone, Copy, Debug, PartialEq, Eq)]
pub enum Command {
    Match,
    Tournament,
    Rota,
    Board,
    Moran,
    Best,
    Mean,
    Certificate,
    Summary,
    Resume,
    Check,
}
