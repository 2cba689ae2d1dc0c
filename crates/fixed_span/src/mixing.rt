//! Weighted means of spans, rounded outward.
ghost use Rattle.std.specs.Prelude.{◌≡◌, ℕ, ◌+◌, ◌*◌, ◌/◌, ◌^◌, ◌<◌, ◌≤◌, ℤ, pos, neg_ℤ, ◌+ℤ◌, ◌*ℤ◌, ◌≤ℤ◌, List, All, sum};
ghost use Rattle.fixed_span.specs.Span.{over, Holds, IsWithin};
ghost use Rattle.fixed_span.specs.Mix.{IsFloor, IsCeiling, CanBeMixed, weighted, lows, highs, AllHold, sum_of_four};

use crate::Span;

// Ends are raised by 10^24, so that all arithmetic is unsigned.
const RAISE: i128 = 1_000_000_000_000_000_000_000_000;

fn raised(end: i128) -> u128
    requires low { neg_ℤ (pos (10 ^ 24)) ≤ℤ end }
    requires high { end ≤ℤ pos (10 ^ 24) }
    ensures value { pos result ≡ end +ℤ pos (10 ^ 24) }
    ensures bound { result ≤ 2 * 10 ^ 24 }
{
    (end + RAISE) as u128
}

fn lowered(x: u128) -> i128
    requires { x ≤ 10 ^ 38 }
    ensures { result +ℤ pos (10 ^ 24) ≡ pos x }
{
    x as i128 - RAISE
}

// The lower end, raised, and how much higher the upper end is.
fn parts(span: Span) -> (u128, u128)
    requires { CanBeMixed span }
    ensures low { pos result.0 ≡ span.lo +ℤ pos (10 ^ 24) }
    ensures high { pos (result.0 + result.1) ≡ span.hi +ℤ pos (10 ^ 24) }
    ensures low_bound { result.0 ≤ 2 * 10 ^ 24 }
    ensures wide_bound { result.1 ≤ 2 * 10 ^ 24 }
{
    let (lo, hi) = span.ends();
    let low = raised(lo);
    let high = raised(hi);
    (low, high - low)
}

fn term(w: u64, x: u128) -> u128
    requires w { w ≤ 10 ^ 12 }
    requires x { x ≤ 2 * 10 ^ 24 }
    ensures value { result ≡ w * x }
    ensures bound { result ≤ 2 * 10 ^ 36 }
{
    w as u128 * x
}

fn total(w0: u64, w1: u64, w2: u64, w3: u64, a: u128, b: u128, c: u128, d: u128) -> u128
    requires w0 { w0 ≤ 10 ^ 12 }
    requires w1 { w1 ≤ 10 ^ 12 }
    requires w2 { w2 ≤ 10 ^ 12 }
    requires w3 { w3 ≤ 10 ^ 12 }
    requires a { a ≤ 2 * 10 ^ 24 }
    requires b { b ≤ 2 * 10 ^ 24 }
    requires c { c ≤ 2 * 10 ^ 24 }
    requires d { d ≤ 2 * 10 ^ 24 }
    ensures value { result ≡ w0 * a + w1 * b + w2 * c + w3 * d }
    ensures bound { result ≤ 8 * 10 ^ 36 }
{
    term(w0, a) + term(w1, b) + term(w2, c) + term(w3, d)
}

// x / q, rounded up.
fn rounded_up(x: u128, q: u64) -> u128
    requires positive { 0 < q }
    requires small { q ≤ 10 ^ 12 }
    requires bound { x < 2 ^ 126 }
    ensures enough { x ≤ result * q }
    ensures least { result * q < x + q }
    ensures bound { result ≤ x }
{
    if x < 1 << 63 {
        ((x as u64 + (q - 1)) / q) as u128
    } else {
        (x + (q - 1) as u128) / q as u128
    }
}

// x / q and x % q, by one division.
fn divided(x: u128, q: u64) -> (u128, u64)
    requires { 0 < q }
    ensures whole { result.0 * q + result.1 ≡ x }
    ensures below { result.1 < q }
    ensures bound { result.0 ≤ x }
{
    let quotient = x / q as u128;
    (quotient, (x - quotient * q as u128) as u64)
}

// The quotient of low, and that of low + wide rounded up, lowered again.
fn both(low: u128, wide: u128, q: u64) -> Span
    requires positive { 0 < q }
    requires small { q ≤ 10 ^ 12 }
    requires low { low ≤ 8 * 10 ^ 36 }
    requires wide { wide ≤ 8 * 10 ^ 36 }
    ensures lo { IsFloor (pos low) q (result.lo +ℤ pos (10 ^ 24)) }
    ensures hi { IsCeiling (pos (low + wide)) q (result.hi +ℤ pos (10 ^ 24)) }
{
    let (quotient, rest) = divided(low, q);
    let up = rounded_up(rest as u128 + wide, q);
    Span {
        lo: lowered(quotient),
        hi: lowered(quotient + up),
    }
}

fn mix_four(w0: u64, w1: u64, w2: u64, w3: u64, a: Span, b: Span, c: Span, d: Span, q: u64) -> Span
    requires positive { 0 < q }
    requires small { q ≤ 10 ^ 12 }
    requires total { w0 + w1 + w2 + w3 ≡ q }
    requires a { CanBeMixed a }
    requires b { CanBeMixed b }
    requires c { CanBeMixed c }
    requires d { CanBeMixed d }
    ensures lo { IsFloor (sum_of_four w0 w1 w2 w3 a.lo b.lo c.lo d.lo) q result.lo }
    ensures hi { IsCeiling (sum_of_four w0 w1 w2 w3 a.hi b.hi c.hi d.hi) q result.hi }
{
    let (a_low, a_wide) = parts(a);
    let (b_low, b_wide) = parts(b);
    let (c_low, c_wide) = parts(c);
    let (d_low, d_wide) = parts(d);
    let low = total(w0, w1, w2, w3, a_low, b_low, c_low, d_low);
    let wide = total(w0, w1, w2, w3, a_wide, b_wide, c_wide, d_wide);
    both(low, wide, q)
}

/// The mean of four spans by weights that sum to `q`: the lower end is the floor and the upper end the
/// ceiling of the weighted sum of the ends over `q`. It holds the mean of any numbers that the four
/// hold, and is at most 1 unit wider than the widest. `q` is from 1 to 10^12, ends from -10^24 to 10^24.
pub fn mix(weights: [u64; 4], spans: [Span; 4], q: u64) -> Span
    requires positive { 1 ≤ q }
    requires small { q ≤ 10 ^ 12 }
    requires total { sum weights ≡ q }
    requires ends { All CanBeMixed spans }
    ensures lo { IsFloor (weighted weights (lows spans)) q result.lo }
    ensures hi { IsCeiling (weighted weights (highs spans)) q result.hi }
    ensures contains { (units : ℕ) (xs : List ℤ) (denominator : ℕ) → AllHold units spans xs denominator → Holds units result (over (weighted weights xs) (q * denominator)) }
    ensures width { (most : ℕ) → All (IsWithin most) spans → IsWithin (most + 1) result }
{
    let [w0, w1, w2, w3] = weights;
    let [a, b, c, d] = spans;
    mix_four(w0, w1, w2, w3, a, b, c, d, q)
}
