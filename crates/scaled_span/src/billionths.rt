//! Numbers in billionths.
ghost use Rattle.std.specs.Prelude.{◌≡◌, ℕ, ◌+◌, ◌*◌, ◌^◌, ◌<◌, ◌≤◌, ℤ, pos, negsuc, ◌≤ℤ◌};
ghost use Rattle.scaled_span.specs.Ratios.{AtMost, whole, above_zero, below_zero};
ghost use Rattle.scaled_span.specs.Values.{value, ExponentWithin, IsFloorOf, IsCappedCeiling};

use crate::ends::depth;
use crate::numbers::Scaled;

const BILLION: u128 = 1_000_000_000;

// x / 2^k, rounded down.
fn shifted(x: u128, k: u32) -> u64
    requires small { x < 2 ^ 94 }
    requires deep { 63 ≤ k }
    ensures below { result * 2 ^ k ≤ x }
    ensures above { x < (result + 1) * 2 ^ k }
    ensures bound { result < 2 ^ 31 }
{
    if k >= 94 { 0 } else { (x >> k) as u64 }
}

// x / 2^k, rounded up.
fn shifted_up(x: u128, k: u32) -> u64
    requires small { x < 2 ^ 94 }
    requires deep { 63 ≤ k }
    requires some { 0 < x }
    ensures above { x ≤ result * 2 ^ k }
    ensures least { result * 2 ^ k < x + 2 ^ k }
{
    shifted(x - 1, k) + 1
}

// 10^9 times the number, rounded down.
pub fn floor_billionths(a: Scaled) -> u64
    requires within { ExponentWithin 2000000 a.e }
    requires chance { AtMost (value a) (whole 1) }
    ensures { IsFloorOf (10 ^ 9) (value a) result }
{
    if a.e > -63 {
        return 0;
    }
    shifted(BILLION * a.m as u128, depth(a.e))
}

// 10^9 times the number, rounded up, but at most 10^9.
pub fn ceiling_billionths(a: Scaled) -> u64
    requires within { ExponentWithin 2000000 a.e }
    ensures { IsCappedCeiling (10 ^ 9) (value a) result }
{
    if a.e > -63 {
        return 1_000_000_000;
    }
    let all = shifted_up(BILLION * a.m as u128, depth(a.e));
    if all < 1_000_000_000 {
        all
    } else {
        1_000_000_000
    }
}
