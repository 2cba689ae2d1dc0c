//! Moves and plays.

/// One player's choice in a turn: to cooperate or to defect.
#[derive(Clone, Copy, Debug, PartialEq, Eq)]
pub enum Move {
    C,
    D,
}

/// One turn, as one of the two players sees it.
#[derive(Clone, Copy, Debug, PartialEq, Eq)]
pub struct Play {
    pub mine: Move,
    pub theirs: Move,
}
