//! A player apart from the program's.
use history_model::{Move, Name};
use player_core::{Kind, Player, Sheet, no_name};
use std::marker::Model;

/// A player that repeats the other's last move. Row 0 plays C and row 1 plays D, and either may be
/// its start.
#[derive(Drop)]
pub(crate) struct Echo {
    start: u32,
    mark: u32,
    turns: u64,
    returns: u64,
}

impl Model for Echo {
    ghost use Rattle.std.specs.Prelude.{[], ◌∷◌};
    ghost use Rattle.player_core.specs.declared.kind.Kind.TheVariants.{Plug};
    ghost use Rattle.player_core.specs.State.{PlayerState, IsState, no_name};

    ghost Value = { PlayerState };

    ghost view = { λ p. record { lasting = record { kind = Plug; name = no_name; automaton = record { den = 1; start = p.start; rows = record { weight = 1; cc = 0; cd = 1; dc = 0; dd = 1 } ∷ record { weight = 0; cc = 0; cd = 1; dc = 0; dd = 1 } ∷ [] } }; mark = p.mark; turns = p.turns; returns = p.returns } };

    ghost invariant = { λ p. IsState (record { lasting = record { kind = Plug; name = no_name; automaton = record { den = 1; start = p.start; rows = record { weight = 1; cc = 0; cd = 1; dc = 0; dd = 1 } ∷ record { weight = 0; cc = 0; cd = 1; dc = 0; dd = 1 } ∷ [] } }; mark = p.mark; turns = p.turns; returns = p.returns }) };
}

impl Player for Echo {
    ghost state = { λ p. p };

    fn kind(&self) -> Kind {
        let _mark = self.mark;
        Kind::Plug
    }

    fn name(&self) -> Name {
        let _mark = self.mark;
        no_name()
    }

    fn load(&mut self, sheet: &Sheet) {
        let _kind = sheet.kind;
        self.mark = self.start;
    }

    fn rows(&self) -> u32 {
        let _mark = self.mark;
        2
    }

    fn start(&self) -> u32 {
        self.start
    }

    fn den(&self) -> u32 {
        let _mark = self.mark;
        1
    }

    fn weight(&self) -> u32 {
        if self.mark == 0 { 1 } else { 0 }
    }

    fn advance(&mut self, mine: Move, theirs: Move) {
        self.mark = match (mine, theirs) {
            (Move::C, Move::C) | (Move::D, Move::C) => 0,
            (Move::C, Move::D) | (Move::D, Move::D) => 1,
        };
        self.turns = self.turns.saturating_add(1);
    }

    fn save(&self) -> u32 {
        self.mark
    }

    fn resume(&mut self, mark: u32) {
        self.mark = mark;
        self.returns = self.returns.saturating_add(1);
    }

    fn advances(&self) -> u64 {
        self.turns
    }

    fn resumes(&self) -> u64 {
        self.returns
    }
}

/// An echo that starts with D, or else with C, and stands at its other row.
pub(crate) fn starting_with(d: bool) -> Echo {
    Echo {
        start: if d { 1 } else { 0 },
        mark: if d { 0 } else { 1 },
        turns: 0,
        returns: 0,
    }
}
