//! The rows of a finite machine.
ghost use Rattle.std.specs.Prelude.{◌≡◌, ◌≤◌};
ghost use Rattle.machine_rows.specs.Rows.{has_both, exit_weight};
ghost use Rattle.machine_rows.specs.RowsRead.{exit_on, with_exit, no_exits};

use crate::sheet::weight_of;
use history_model::Move;

/// One row of a finite machine: in `state`, having heard `heard`, it goes to `next` and plays `play`.
#[derive(Clone, Copy, Debug, PartialEq, Eq)]
pub struct Transition {
    /// The state that is left, as the file numbers it.
    pub state: u32,
    /// The other's last play.
    pub heard: Move,
    /// The state that follows, as the file numbers it.
    pub next: u32,
    /// What is played next.
    pub play: Move,
}

/// The rows that leave one state.
#[derive(Clone, Copy, Debug)]
pub struct Exits {
    pub on_c: Option<Transition>,
    pub on_d: Option<Transition>,
}

/// The exits of a state that no row leaves yet.
pub fn no_exits() -> Exits
    ensures { result ≡ no_exits }
{
    Exits {
        on_c: None,
        on_d: None,
    }
}

/// The row by which a state is left on hearing a move.
pub fn exit_on(exits: &Exits, heard: Move) -> Option<Transition>
    ensures { result ≡ exit_on heard exits.now }
{
    match heard {
        Move::C => exits.on_c,
        Move::D => exits.on_d,
    }
}

/// The exits with one more row.
pub fn with_exit(exits: Exits, row: Transition) -> Exits
    ensures { result ≡ with_exit exits row }
{
    match row.heard {
        Move::C => Exits {
            on_c: Some(row),
            on_d: exits.on_d,
        },
        Move::D => Exits {
            on_c: exits.on_c,
            on_d: Some(row),
        },
    }
}

/// Whether a state is left on hearing C and on hearing D.
pub fn has_both(exits: &Exits) -> bool
    ensures { result ≡ has_both exits.now }
{
    exits.on_c.is_some() && exits.on_d.is_some()
}

/// The weight of what is played on an exit; 0 where there is none.
pub fn exit_weight(exit: Option<Transition>) -> u32
    ensures value { result ≡ exit_weight exit }
    ensures within { result ≤ 1 }
{
    match exit {
        Some(row) => weight_of(row.play),
        None => 0,
    }
}
