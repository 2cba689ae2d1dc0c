//! Automata as plain data.
ghost use Rattle.std.specs.Prelude.{◌≡◌, ◌<◌, length};

use crate::Move;
use std::marker::Model;

/// A state of an automaton: its weight of C, and the next row after the plays CC, CD, DC and DD of
/// (own move, other's move).
#[derive(Clone, Copy, Debug, PartialEq, Eq)]
pub struct GridRow {
    pub weight: u32,
    pub next: [u32; 4],
}

impl GridRow {
    ghost use Rattle.history_model.specs.Automaton.{plain_row, next_of};

    /// The next row after a play.
    pub fn next_after(&self, mine: Move, theirs: Move) -> u32
        ensures { result ≡ next_of (plain_row self.now) mine theirs }
    {
        match (mine, theirs) {
            (Move::C, Move::C) => self.next[0],
            (Move::C, Move::D) => self.next[1],
            (Move::D, Move::C) => self.next[2],
            (Move::D, Move::D) => self.next[3],
        }
    }
}

/// An automaton: 1 to 512 rows, with weights over `den`, which is from 1 to 1000. No weight is above
/// `den`; `start` and each next row are rows. Contracts see it as that plain data.
#[derive(Debug, Drop)]
pub struct Grid {
    pub den: u32,
    pub start: u32,
    pub rows: Vec<GridRow>,
}

impl Model for Grid {
    ghost use Rattle.std.specs.Prelude.{map};
    ghost use Rattle.history_model.specs.Automaton.{Automaton, IsAutomaton, plain_row};

    ghost Value = { Automaton };

    ghost view = { λ g. record { den = g.den; start = g.start; rows = map plain_row g.rows.items } };

    ghost invariant = { λ g. IsAutomaton (record { den = g.den; start = g.start; rows = map plain_row g.rows.items }) };
}

impl Grid {
    ghost use Rattle.history_model.specs.Automaton.{IsAutomaton, row_at, plain_row};

    /// The denominator of the weights.
    pub(crate) fn denominator(&self) -> u32
        ensures value { result ≡ self.now.den }
        ensures automaton { IsAutomaton self.now }
    {
        self.den
    }

    /// The row at which a match begins.
    pub(crate) fn start(&self) -> u32
        ensures value { result ≡ self.now.start }
        ensures automaton { IsAutomaton self.now }
    {
        self.start
    }

    /// The number of rows.
    pub fn len(&self) -> u32
        ensures value { result ≡ length self.now.rows }
        ensures automaton { IsAutomaton self.now }
    {
        self.rows.len() as u32
    }

    /// The row at a place.
    pub fn row(&self, place: u32) -> GridRow
        requires { place < length self.now.rows }
        ensures row { plain_row result ≡ row_at self.now place }
        ensures automaton { IsAutomaton self.now }
    {
        self.rows[place as usize]
    }
}
