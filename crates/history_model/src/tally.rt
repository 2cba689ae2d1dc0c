//! How often each play came in a match.
ghost use Rattle.std.specs.Prelude.{◌≡◌, ◌≤◌, ◌<◌, ◌^◌, ◌+◌, ◌*◌, pos};
ghost use Rattle.history_model.specs.Tally.{total};

use crate::{Game, Move};

/// The numbers of plays CC, CD, DC and DD, counted as the left player sees them.
#[derive(Clone, Copy, Debug, PartialEq, Eq)]
pub struct Tally {
    pub cc: u64,
    pub cd: u64,
    pub dc: u64,
    pub dd: u64,
}

impl Tally {
    ghost use Rattle.history_model.specs.Tally.{no_plays, with_play, total, left_points, right_points};

    /// No play yet.
    pub fn new() -> Tally
        ensures { result ≡ no_plays }
    {
        Tally {
            cc: 0,
            cd: 0,
            dc: 0,
            dd: 0,
        }
    }

    /// Counts one more play of (left's move, right's move).
    pub fn count(&mut self, left: Move, right: Move)
        requires { total self.old < 2 ^ 63 }
        ensures { self.new ≡ with_play left right self.old }
    {
        match (left, right) {
            (Move::C, Move::C) => self.cc += 1,
            (Move::C, Move::D) => self.cd += 1,
            (Move::D, Move::C) => self.dc += 1,
            (Move::D, Move::D) => self.dd += 1,
        }
    }

    /// What the left player is paid in all, at most 10^18.
    pub fn left_points(&self, game: &Game) -> u128
        requires { total self.now ≤ 10 ^ 12 }
        ensures value { result ≡ left_points game.now self.now }
        ensures few { result ≤ 10 ^ 18 }
    {
        let (r, s, t, p) = game.unsigned();
        paid(*self, r, s, t, p)
    }

    /// What the right player is paid in all, at most 10^18.
    pub fn right_points(&self, game: &Game) -> u128
        requires { total self.now ≤ 10 ^ 12 }
        ensures value { result ≡ right_points game.now self.now }
        ensures few { result ≤ 10 ^ 18 }
    {
        let (r, s, t, p) = game.unsigned();
        paid(*self, r, t, s, p)
    }

    /// The left player's score.
    pub fn left_score(&self, game: &Game) -> i128
        requires { total self.now ≤ 10 ^ 12 }
        ensures { result ≡ pos (left_points game.now self.now) }
    {
        self.left_points(game) as i128
    }

    /// The right player's score.
    pub fn right_score(&self, game: &Game) -> i128
        requires { total self.now ≤ 10 ^ 12 }
        ensures { result ≡ pos (right_points game.now self.now) }
    {
        self.right_points(game) as i128
    }
}

// The sum of the plays, each times its payoff.
fn paid(tally: Tally, cc: u64, cd: u64, dc: u64, dd: u64) -> u128
    requires plays { total tally ≤ 10 ^ 12 }
    requires cc { cc ≤ 1000000 }
    requires cd { cd ≤ 1000000 }
    requires dc { dc ≤ 1000000 }
    requires dd { dd ≤ 1000000 }
    ensures sum { result ≡ cc * tally.cc + cd * tally.cd + dc * tally.dc + dd * tally.dd }
    ensures few { result ≤ 10 ^ 18 }
{
    product(cc, tally.cc) + product(cd, tally.cd) + product(dc, tally.dc) + product(dd, tally.dd)
}

fn product(pay: u64, count: u64) -> u128
    requires pay { pay ≤ 1000000 }
    requires count { count ≤ 10 ^ 12 }
    ensures value { result ≡ pay * count }
    ensures few { result ≤ 1000000 * count }
{
    pay as u128 * count as u128
}
