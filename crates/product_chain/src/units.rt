//! From parts of a point to units of 10^-12.
ghost use Rattle.std.specs.Prelude.{◌≡◌, ◌+◌, ◌*◌, ◌/◌, ◌^◌, ◌<◌, ◌≤◌, pos, max, min};
ghost use Rattle.fixed_span.specs.Span.{score_units};
ghost use Rattle.product_chain.specs.Estimate.{CanEnd, IsEnds};

use fixed_span::Span;

const UNITS: u128 = 1_000_000_000_000;

// `x`/`scale` in units, rounded down.
fn units(x: u128, scale: u128) -> u128
    requires some { 1 ≤ scale }
    requires fine { scale ≤ 2 ^ 86 }
    requires small { x ≤ 2 ^ 87 }
    ensures low { result * scale ≤ x * score_units }
    ensures high { x * score_units < result * scale + scale }
    ensures few { result ≤ 2 ^ 127 }
{
    let whole = x / scale;
    let rest = x % scale;
    whole * UNITS + rest * UNITS / scale
}

// `x`/`scale` in units, rounded up.
fn units_up(x: u128, scale: u128) -> u128
    requires some { 1 ≤ scale }
    requires fine { scale ≤ 2 ^ 86 }
    requires small { x ≤ 2 ^ 87 }
    ensures low { x * score_units ≤ result * scale }
    ensures high { result * scale < x * score_units + scale }
    ensures few { result ≤ 2 ^ 127 }
{
    let whole = x / scale;
    let rest = x % scale;
    whole * UNITS + (rest * UNITS + (scale - 1)) / scale
}

// The span from `lo` to `hi`, drawn between a floor and a roof.
fn drawn(lo: u128, hi: u128, floor: u128, roof: u128) -> Span
    requires ordered { lo ≤ hi }
    requires low { lo ≤ roof }
    requires high { floor ≤ hi }
    requires ends { floor ≤ roof }
    requires roof { roof ≤ 10 ^ 22 }
    ensures lo { result.lo ≡ pos (max lo floor) }
    ensures hi { result.hi ≡ pos (min hi roof) }
    ensures ordered { max lo floor ≤ min hi roof }
{
    Span {
        lo: lo.max(floor) as i128,
        hi: hi.min(roof) as i128,
    }
}

/// The span of `x`/`scale`, where the exact value can be greater by `err`/`scale`; it stays between
/// the floor and the roof.
pub fn ends(x: u128, err: u128, scale: u128, floor: u128, roof: u128) -> Span
    requires some { 1 ≤ scale }
    requires fine { scale ≤ 2 ^ 86 }
    requires room { CanEnd x err scale floor roof }
    requires roof { roof ≤ 10 ^ 22 }
    ensures { IsEnds x err scale floor roof result }
{
    drawn(units(x, scale), units_up(x + err, scale), floor, roof)
}

/// What `turns` turns of one payoff come to, in units.
pub fn limit(turns: u32, payoff: u128) -> u128
    requires turns { turns ≤ 10000 }
    requires payoff { payoff ≤ 1000000 }
    ensures value { result ≡ turns * payoff * score_units }
    ensures few { result ≤ 10 ^ 22 }
{
    turns as u128 * payoff * UNITS
}
