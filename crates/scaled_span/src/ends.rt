//! The operations on single numbers, each rounded one way.
ghost use Rattle.std.specs.Prelude.{◌≡◌, ◌↔◌, IsTrue, ℕ, ◌+◌, ◌*◌, ◌^◌, ◌<◌, ◌≤◌, ℤ, pos, neg_ℤ, ◌≤ℤ◌, ◌+ℤ◌};
ghost use Rattle.scaled_span.specs.Ratios.{AtMost, IsClose, scaled, times, over, plus_one, share_of, above_zero, below_zero};
ghost use Rattle.scaled_span.specs.Values.{value, ExponentWithin, IsBetween, IsRoundedDown, IsRoundedUp};

use crate::numbers::Scaled;
use crate::rounding::{rounded_down, rounded_up};

/// Whether an exponent lies between -2,000,000 and 2,000,000.
pub fn is_exponent(e: i32) -> bool
    ensures { IsTrue result ↔ ExponentWithin 2000000 e }
{
    -2_000_000 <= e && e <= 2_000_000
}

fn sum(a: i32, b: i32) -> i32
    requires a { ExponentWithin 2000100 a }
    requires b { ExponentWithin 2000100 b }
    ensures value { result ≡ a +ℤ b }
    ensures within { ExponentWithin 4100000 result }
{
    a + b
}

// The exponent of a quotient whose dividend has 64 bits more.
fn quotient_exponent(a: i32, b: i32) -> i32
    requires a { ExponentWithin 2000100 a }
    requires b { ExponentWithin 2000100 b }
    ensures value { a ≡ result +ℤ b +ℤ pos 64 }
    ensures within { ExponentWithin 4100000 result }
{
    a - b - 64
}

pub fn mul_down(a: Scaled, b: Scaled) -> Scaled
    requires a { ExponentWithin 2000100 a.e }
    requires b { ExponentWithin 2000100 b.e }
    ensures rounded { IsRoundedDown (2 ^ 63) 2 result (times (value a) (value b)) }
    ensures exponent { (j k : ℕ) → ExponentWithin j a.e → ExponentWithin k b.e → ExponentWithin (j + k + 140) result.e }
{
    rounded_down(a.m as u128 * b.m as u128, sum(a.e, b.e))
}

pub fn mul_up(a: Scaled, b: Scaled) -> Scaled
    requires a { ExponentWithin 2000100 a.e }
    requires b { ExponentWithin 2000100 b.e }
    ensures rounded { IsRoundedUp (2 ^ 63) 2 result (times (value a) (value b)) }
    ensures exponent { (j k : ℕ) → ExponentWithin j a.e → ExponentWithin k b.e → ExponentWithin (j + k + 140) result.e }
{
    rounded_up(a.m as u128 * b.m as u128, sum(a.e, b.e))
}

// m * 2^64 / n, rounded down.
fn divided(m: u64, n: u64) -> u128
    requires m { 2 ^ 63 ≤ m }
    requires n { 2 ^ 63 ≤ n }
    ensures below { result * n ≤ m * 2 ^ 64 }
    ensures above { m * 2 ^ 64 < result * n + n }
    ensures some { 0 < result }
    ensures room { result < 2 ^ 66 }
{
    let x = (m as u128) << 64;
    x / n as u128
}

// m * 2^64 / n, rounded up.
fn divided_up(m: u64, n: u64) -> u128
    requires m { 2 ^ 63 ≤ m }
    requires n { 2 ^ 63 ≤ n }
    ensures above { m * 2 ^ 64 ≤ result * n }
    ensures least { result * n ≤ m * 2 ^ 64 + n }
    ensures some { 0 < result }
{
    let q = divided(m, n);
    if q * n as u128 == (m as u128) << 64 {
        q
    } else {
        q + 1
    }
}

pub fn div_down(a: Scaled, b: Scaled) -> Scaled
    requires a { ExponentWithin 2000100 a.e }
    requires b { ExponentWithin 2000100 b.e }
    ensures rounded { IsRoundedDown (2 ^ 63) 2 result (over (value a) (value b)) }
    ensures exponent { (j k : ℕ) → ExponentWithin j a.e → ExponentWithin k b.e → ExponentWithin (j + k + 140) result.e }
{
    let q = divided(a.m, b.m);
    rounded_down(q, quotient_exponent(a.e, b.e))
}

pub fn div_up(a: Scaled, b: Scaled) -> Scaled
    requires a { ExponentWithin 2000100 a.e }
    requires b { ExponentWithin 2000100 b.e }
    ensures rounded { IsRoundedUp (2 ^ 63) 2 result (over (value a) (value b)) }
    ensures exponent { (j k : ℕ) → ExponentWithin j a.e → ExponentWithin k b.e → ExponentWithin (j + k + 140) result.e }
{
    let q = divided_up(a.m, b.m);
    rounded_up(q, quotient_exponent(a.e, b.e))
}

// How far e lies below 0.
pub fn depth(e: i32) -> u32
    requires within { ExponentWithin 2000100 e }
    requires low { e ≤ℤ pos 0 }
    ensures depth { result ≡ below_zero e }
    ensures height { above_zero e ≡ 0 }
{
    -e as u32
}

// m + 2^k
fn joined(m: u64, k: u32) -> u128
    requires { k < 128 }
    ensures value { result ≡ m + 2 ^ k }
    ensures some { 0 < result }
{
    m as u128 + (1 << k)
}

// The error is half of that of the other operations, so that that of `share` is small enough.
pub fn add_one_down(a: Scaled) -> Scaled
    requires a { ExponentWithin 2000100 a.e }
    ensures rounded { IsRoundedDown (2 ^ 63) 1 result (plus_one (value a)) }
    ensures exponent { (k : ℕ) → ExponentWithin k a.e → ExponentWithin (k + 70) result.e }
{
    if a.e > 0 {
        return a;
    }
    let k = depth(a.e);
    if k >= 128 {
        return Scaled { m: 1 << 63, e: -63 };
    }
    rounded_down(joined(a.m, k), a.e)
}

pub fn add_one_up(a: Scaled) -> Scaled
    requires a { ExponentWithin 2000100 a.e }
    ensures rounded { IsRoundedUp (2 ^ 63) 2 result (plus_one (value a)) }
    ensures exponent { (k : ℕ) → ExponentWithin k a.e → ExponentWithin (k + 70) result.e }
{
    if a.e > 0 {
        return rounded_up(a.m as u128 + 1, a.e);
    }
    let k = depth(a.e);
    if k >= 128 {
        return Scaled {
            m: (1 << 63) + 1,
            e: -63,
        };
    }
    rounded_up(joined(a.m, k), a.e)
}
