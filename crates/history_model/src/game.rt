//! The four payoffs of a game.
ghost use Rattle.std.specs.Prelude.{◌≡◌, ◌≤◌, ◌↔◌, pos, IsTrue};

use crate::Move;
use std::marker::Model;

/// What a player is paid in a turn: `r` for CC, `s` for CD, `t` for DC and `p` for DD, each from 0
/// to 1,000,000. Contracts see the four payoffs as natural numbers.
#[derive(Clone, Copy, Debug, PartialEq, Eq)]
pub struct Game {
    pub r: i64,
    pub s: i64,
    pub t: i64,
    pub p: i64,
}

impl Model for Game {
    ghost use Rattle.std.specs.Prelude.{pos};
    ghost use Rattle.history_model.specs.Game.{Payoffs, payoffs_of, AreInRange, magnitude_back};

    ghost Value = { Payoffs };

    ghost view = { λ g. payoffs_of g.r g.s g.t g.p };

    ghost invariant = { λ g. AreInRange g.r g.s g.t g.p };

    ghost inverse = { λ v. record { r = pos v.r; s = pos v.s; t = pos v.t; p = pos v.p } };

    ghost inverse_ok = { λ g h i. record {
      r = magnitude_back g.r h.reward.0 i;
      s = magnitude_back g.s h.sucker.0 i;
      t = magnitude_back g.t h.temptation.0 i;
      p = magnitude_back g.p h.punishment.0 i;
    } };
}

impl Game {
    ghost use Rattle.history_model.specs.Game.{pay, least, most, IsDilemma, IsGame};

    /// What `mine` is paid against `theirs`.
    pub fn pay(&self, mine: Move, theirs: Move) -> i64
        ensures value { result ≡ pos (pay self.now mine theirs) }
        ensures game { IsGame self.now }
    {
        match (mine, theirs) {
            (Move::C, Move::C) => self.r,
            (Move::C, Move::D) => self.s,
            (Move::D, Move::C) => self.t,
            (Move::D, Move::D) => self.p,
        }
    }

    /// The payoffs r, s, t and p as unsigned numbers.
    pub fn unsigned(&self) -> (u64, u64, u64, u64)
        ensures r { result.0 ≡ self.now.r }
        ensures s { result.1 ≡ self.now.s }
        ensures t { result.2 ≡ self.now.t }
        ensures p { result.3 ≡ self.now.p }
        ensures game { IsGame self.now }
    {
        (self.r as u64, self.s as u64, self.t as u64, self.p as u64)
    }

    /// Whether the game is a prisoner's dilemma: T > R > P > S and 2R > T + S (Axelrod 1984).
    pub fn dilemma(&self) -> bool
        ensures { IsTrue result ↔ IsDilemma self.now }
    {
        let (r, s, t, p) = self.unsigned();
        if t <= r {
            return false;
        }
        if r <= p {
            return false;
        }
        if p <= s {
            return false;
        }
        t + s < 2 * r
    }

    /// The least of the four payoffs.
    pub fn least(&self) -> i64
        ensures { result ≡ pos (least self.now) }
    {
        let (r, s, t, p) = self.unsigned();
        r.min(s).min(t).min(p) as i64
    }

    /// The greatest of the four payoffs.
    pub fn most(&self) -> i64
        ensures { result ≡ pos (most self.now) }
    {
        let (r, s, t, p) = self.unsigned();
        r.max(s).max(t).max(p) as i64
    }
}
