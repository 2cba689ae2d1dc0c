//! The built-in strategies as players.
ghost use Rattle.std.specs.Prelude.{◌≡◌, ◌<◌, length};
ghost use Rattle.history_model.specs.Automaton.{IsSure, plain_row, row_at};
ghost use Rattle.plug_players.specs.Builtin.{builtin_automaton, builtin_at_start};

use crate::Builtin;
use history_model::{GridRow, Move, Name};
use player_core::{Kind, Player, Sheet};
use std::marker::Model;

/// A built-in strategy as a player. Contracts see it as its state: the kind `Plug`, the name and the
/// automaton of the built-in, the mark, and the counts of advances and resumes.
#[derive(Drop)]
pub struct PlugPlayer {
    which: Builtin,
    mark: u32,
    turns: u64,
    returns: u64,
}

impl Model for PlugPlayer {
    ghost use Rattle.player_core.specs.State.{PlayerState, IsState};
    ghost use Rattle.plug_players.specs.Builtin.{builtin_state};

    ghost Value = { PlayerState };

    ghost view = { λ p. builtin_state p.which p.mark p.turns p.returns };

    ghost invariant = { λ p. IsState (builtin_state p.which p.mark p.turns p.returns) };
}

// The row of a built-in at a mark.
fn row_of(which: Builtin, mark: u32) -> GridRow
    requires { mark < length (builtin_automaton which).rows }
    ensures { plain_row result ≡ row_at (builtin_automaton which) mark }
{
    which.rows()[mark as usize]
}

impl PlugPlayer {
    /// The player at its start, with both counts at 0. Takes no memory.
    pub fn new(which: Builtin) -> PlugPlayer
        ensures start { result ≡ builtin_at_start which }
        ensures sure { IsSure result.lasting.automaton }
    {
        PlugPlayer {
            which,
            mark: 0,
            turns: 0,
            returns: 0,
        }
    }
}

impl Player for PlugPlayer {
    ghost state = { λ p. p };

    fn kind(&self) -> Kind {
        let _mark = self.mark;
        Kind::Plug
    }

    fn name(&self) -> Name {
        self.which.name()
    }

    fn load(&mut self, sheet: &Sheet) {
        let _kind = sheet.kind;
        self.mark = 0;
    }

    fn rows(&self) -> u32 {
        self.which.rows().len() as u32
    }

    fn start(&self) -> u32 {
        let _mark = self.mark;
        0
    }

    fn den(&self) -> u32 {
        let _mark = self.mark;
        1
    }

    fn weight(&self) -> u32 {
        row_of(self.which, self.mark).weight
    }

    fn advance(&mut self, mine: Move, theirs: Move) {
        self.mark = row_of(self.which, self.mark).next_after(mine, theirs);
        self.turns = self.turns.saturating_add(1);
    }

    fn save(&self) -> u32 {
        self.mark
    }

    fn resume(&mut self, mark: u32) {
        self.mark = mark;
        self.returns = self.returns.saturating_add(1);
    }

    fn advances(&self) -> u64 {
        self.turns
    }

    fn resumes(&self) -> u64 {
        self.returns
    }
}
