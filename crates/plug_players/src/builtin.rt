//! The built-in strategies, and their automata as tables.
ghost use Rattle.std.specs.Prelude.{◌≡◌, map, length};
ghost use Rattle.history_model.specs.Automaton.{plain_row};
ghost use Rattle.plug_players.specs.Builtin.{builtin_name, builtin_rows};

use history_model::{GridRow, Name};

/// Strategies of the field, under the names of the Axelrod library. Each is sure: no move is drawn
/// by chance.
#[derive(Clone, Copy, Debug, PartialEq, Eq)]
pub enum Builtin {
    /// Always C.
    Cooperator,
    /// Always D.
    Defector,
    /// C first, then the other's last move (Axelrod 1984).
    TitForTat,
    /// D exactly where the other's last two moves are both D (Axelrod 1984).
    TitForTwoTats,
    /// D exactly where some move of the other is D (Friedman 1971).
    Grudger,
    /// C first, then C exactly where the last play was CC or DD (Nowak and Sigmund 1993).
    WinStayLoseShift,
    /// C first, then the opposite of the own last move.
    Alternator,
}

// Rows have a weight of C over 1, and the next row after CC, CD, DC and DD of (own move, other's).
// The start is row 0.
const COOPERATOR: [GridRow; 1] = [GridRow {
    weight: 1,
    next: [0, 0, 0, 0],
}];

const DEFECTOR: [GridRow; 1] = [GridRow {
    weight: 0,
    next: [0, 0, 0, 0],
}];

const TIT_FOR_TAT: [GridRow; 2] = [
    GridRow {
        weight: 1,
        next: [0, 1, 0, 1],
    },
    GridRow {
        weight: 0,
        next: [0, 1, 0, 1],
    },
];

const TIT_FOR_TWO_TATS: [GridRow; 3] = [
    GridRow {
        weight: 1,
        next: [0, 1, 0, 1],
    },
    GridRow {
        weight: 1,
        next: [0, 2, 0, 2],
    },
    GridRow {
        weight: 0,
        next: [0, 2, 0, 2],
    },
];

const GRUDGER: [GridRow; 2] = [
    GridRow {
        weight: 1,
        next: [0, 1, 0, 1],
    },
    GridRow {
        weight: 0,
        next: [1, 1, 1, 1],
    },
];

const WIN_STAY_LOSE_SHIFT: [GridRow; 2] = [
    GridRow {
        weight: 1,
        next: [0, 1, 1, 0],
    },
    GridRow {
        weight: 0,
        next: [0, 1, 1, 0],
    },
];

const ALTERNATOR: [GridRow; 2] = [
    GridRow {
        weight: 1,
        next: [1, 1, 0, 0],
    },
    GridRow {
        weight: 0,
        next: [1, 1, 0, 0],
    },
];

impl Builtin {
    /// All of them.
    pub const ALL: [Builtin; 7] = [
        Builtin::Cooperator,
        Builtin::Defector,
        Builtin::TitForTat,
        Builtin::TitForTwoTats,
        Builtin::Grudger,
        Builtin::WinStayLoseShift,
        Builtin::Alternator,
    ];

    /// The name that sheets call the built-in by.
    pub fn name(self) -> Name
        ensures { result ≡ builtin_name self }
    {
        match Name::read(self.text()) {
            Some(name) => name,
            None => unreachable!(),
        }
    }

    fn text(self) -> &'static [u8]
        ensures { result.now ≡ builtin_name self }
    {
        match self {
            Builtin::Cooperator => b"Cooperator",
            Builtin::Defector => b"Defector",
            Builtin::TitForTat => b"Tit For Tat",
            Builtin::TitForTwoTats => b"Tit For Two Tats",
            Builtin::Grudger => b"Grudger",
            Builtin::WinStayLoseShift => b"Win-Stay Lose-Shift",
            Builtin::Alternator => b"Alternator",
        }
    }

    /// The rows of the automaton. Weights are over 1, and the start is row 0.
    pub(crate) fn rows(self) -> &'static [GridRow]
        ensures { map plain_row result.now ≡ builtin_rows self }
    {
        match self {
            Builtin::Cooperator => &COOPERATOR,
            Builtin::Defector => &DEFECTOR,
            Builtin::TitForTat => &TIT_FOR_TAT,
            Builtin::TitForTwoTats => &TIT_FOR_TWO_TATS,
            Builtin::Grudger => &GRUDGER,
            Builtin::WinStayLoseShift => &WIN_STAY_LOSE_SHIFT,
            Builtin::Alternator => &ALTERNATOR,
        }
    }
}
