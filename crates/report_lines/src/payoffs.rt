//! The payoffs that a line shows, and those of the raised game.
ghost use Rattle.std.specs.Prelude.{◌≡◌, ◌≤◌, pos, negsuc, ◌≤ℤ◌};
ghost use Rattle.history_model.specs.Game.{IsGame};
ghost use Rattle.report_lines.specs.Payoffs.{below, is_small, less, raised};

use crate::ShownGame;
use history_model::Game;

// How far a payoff lies below 0.
fn below(payoff: i64) -> u32
    requires low { negsuc 999999 ≤ℤ payoff }
    requires high { payoff ≤ℤ pos 1000000 }
    ensures value { result ≡ below payoff }
    ensures bound { result ≤ 1000000 }
{
    if payoff < 0 {
        payoff.unsigned_abs() as u32
    } else {
        0
    }
}

// A payoff plus the offset, which is no less than it lies below 0.
fn raised(payoff: i64, offset: u32) -> u64
    requires low { negsuc 999999 ≤ℤ payoff }
    requires high { payoff ≤ℤ pos 1000000 }
    requires enough { below payoff ≤ offset }
    requires few { offset ≤ 1000000 }
    ensures value { result ≡ raised offset payoff }
    ensures bound { result ≤ 2000000 }
{
    (payoff + offset as i64) as u64
}

fn game_of(r: u64, s: u64, t: u64, p: u64) -> Game
    requires { IsGame (record { r = r; s = s; t = t; p = p }) }
    ensures { result ≡ record { r = r; s = s; t = t; p = p } }
{
    Game {
        r: r as i64,
        s: s as i64,
        t: t as i64,
        p: p as i64,
    }
}

// Whether a payoff plus the offset is at most 1,000,000.
fn is_small(payoff: i64, offset: u32) -> bool
    requires low { negsuc 999999 ≤ℤ payoff }
    requires high { payoff ≤ℤ pos 1000000 }
    requires enough { below payoff ≤ offset }
    requires few { offset ≤ 1000000 }
    ensures { result ≡ is_small (raised offset payoff) }
{
    raised(payoff, offset) <= 1_000_000
}

fn less(payoff: u64, offset: u32) -> i64
    requires payoff { payoff ≤ 1000000 }
    requires offset { offset ≤ 1000000 }
    ensures { result ≡ less offset payoff }
{
    payoff as i64 - offset as i64
}

impl ShownGame {
    ghost use Rattle.std.specs.Prelude.{◌≡◌, ◌≤◌, true};
    ghost use Rattle.report_lines.specs.HeadForms.{is_game};
    ghost use Rattle.report_lines.specs.Payoffs.{are_near, offset_of, raised_game, shown_game};

    /// The payoffs of a game, each less by an offset of at most 1,000,000.
    pub fn of(game: &Game, offset: u32) -> ShownGame
        requires few { offset ≤ 1000000 }
        ensures { result ≡ shown_game offset game.now }
    {
        let (r, s, t, p) = game.unsigned();
        ShownGame {
            r: less(r, offset),
            s: less(s, offset),
            t: less(t, offset),
            p: less(p, offset),
        }
    }

    /// How far the least payoff lies below 0, and 0 where none does. Payoffs are from -1,000,000.
    pub fn offset(&self) -> u32
        requires line { is_game self.now ≡ true }
        ensures value { result ≡ offset_of self.now }
        ensures bound { result ≤ 1000000 }
    {
        let (r, s) = (below(self.r), below(self.s));
        let (t, p) = (below(self.t), below(self.p));
        r.max(s).max(t).max(p)
    }

    /// Whether the greatest payoff is at most 1,000,000 above the least, or above 0 where none is below.
    pub fn is_near(&self) -> bool
        requires line { is_game self.now ≡ true }
        ensures { result ≡ are_near self.now }
    {
        let offset = self.offset();
        (is_small(self.r, offset) && is_small(self.s, offset))
            && (is_small(self.t, offset) && is_small(self.p, offset))
    }

    /// The payoffs plus the offset: the game in which none is below 0.
    pub fn raised(&self) -> Game
        requires line { is_game self.now ≡ true }
        requires near { are_near self.now ≡ true }
        ensures { result ≡ raised_game self.now }
    {
        let offset = self.offset();
        let (r, s) = (raised(self.r, offset), raised(self.s, offset));
        let (t, p) = (raised(self.t, offset), raised(self.p, offset));
        game_of(r, s, t, p)
    }
}
