//! Kinds of players.

/// The four kinds of strategies.
#[derive(Clone, Copy, Debug, PartialEq, Eq)]
pub enum Kind {
    /// A weight for each last play.
    MemoryOne,
    /// A finite machine, which moves from state to state by what it hears.
    Machine,
    /// A weight for each choice of some last and first plays.
    Lookup,
    /// A player that is known by its name alone.
    Plug,
}
