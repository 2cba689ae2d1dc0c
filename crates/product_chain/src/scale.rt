//! The parts of a point in which a chain counts.
ghost use Rattle.std.specs.Prelude.{◌≡◌, ◌+◌, ◌*◌, ◌/◌, ◌^◌, ◌≤◌, pos};
ghost use Rattle.history_model.specs.Game.{most, pay, IsGame};
ghost use Rattle.product_chain.specs.Scale.{top, IsScale};

use history_model::{Game, Move};

/// The most that a turn pays, or 1.
pub fn top_of(game: &Game) -> u128
    ensures value { result ≡ top game.now }
    ensures some { 1 ≤ result }
    ensures few { result ≤ 1000000 }
    ensures game { IsGame game.now }
{
    let (r, s, t, p) = game.unsigned();
    r.max(s).max(t).max(p).max(1) as u128
}

fn most_points(turns: u32, top: u128) -> u128
    requires some_turns { 1 ≤ turns }
    requires few_turns { turns ≤ 10000 }
    requires some { 1 ≤ top }
    requires few { top ≤ 1000000 }
    ensures value { result ≡ turns * top }
    ensures some { 1 ≤ result }
    ensures few { result ≤ 10 ^ 10 }
{
    turns as u128 * top
}

/// The finest parts of a point in which the points of all turns come to at most `room` parts.
pub fn scale_of(game: &Game, turns: u32, room: u128) -> u128
    requires some_turns { 1 ≤ turns }
    requires few_turns { turns ≤ 10000 }
    ensures { IsScale game.now turns room result }
{
    room / most_points(turns, top_of(game))
}

fn times(points: u128, top: u128, scale: u128) -> u128
    requires few { points ≤ top }
    requires fits { top * scale ≤ 2 ^ 86 }
    ensures value { result ≡ points * scale }
    ensures within { result ≤ top * scale }
{
    points * scale
}

/// What a play pays, in parts of which `scale` make a point.
pub fn gain(game: &Game, mine: Move, theirs: Move, scale: u128) -> u128
    requires { top game.now * scale ≤ 2 ^ 86 }
    ensures value { result ≡ pay game.now mine theirs * scale }
    ensures within { result ≤ top game.now * scale }
{
    times(game.pay(mine, theirs) as u128, top_of(game), scale)
}
