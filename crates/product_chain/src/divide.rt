//! Division by a fixed number: a product by its reciprocal, at most 4 below the quotient.
ghost use Rattle.std.specs.Prelude.{◌≡◌, ◌+◌, ◌*◌, ◌/◌, ◌^◌, ◌<◌, ◌≤◌};

const HALF: u128 = 0x1_0000_0000_0000_0000;

/// A divisor with its reciprocal: the floor of 2^128 / `q`, or one less, in two halves.
#[derive(Clone, Copy)]
pub struct Divisor {
    pub q: u64,
    pub high: u64,
    pub low: u64,
    pub ghost positive: { 0 < q },
    pub ghost below: { (high * 2 ^ 64 + low) * q ≤ 2 ^ 128 },
    pub ghost above: { 2 ^ 128 ≤ (high * 2 ^ 64 + low + 1) * q },
}

impl Divisor {
    pub fn new(q: u64) -> Divisor
        requires positive { 0 < q }
        requires small { q ≤ 10 ^ 12 }
        ensures { result.q ≡ q }
    {
        let inverse = u128::MAX / q as u128;
        Divisor {
            q,
            high: (inverse / HALF) as u64,
            low: (inverse % HALF) as u64,
        }
    }
}

/// The upper half of a product.
#[inline(always)]
pub fn upper(a: u64, b: u64) -> u64
    ensures low { result * 2 ^ 64 ≤ a * b }
    ensures high { a * b < (result + 1) * 2 ^ 64 }
{
    (a as u128 * b as u128 / HALF) as u64
}

/// `x` divided by a divisor: the quotient, or up to 4 less.
#[inline(always)]
pub fn divided(x: u128, by: &Divisor) -> u128
    ensures low { result * by.now.q ≤ x }
    ensures high { x ≤ (result + 4) * by.now.q }
{
    let high = (x / HALF) as u64;
    let low = (x % HALF) as u64;
    let carries = upper(high, by.low) as u128 + upper(low, by.high) as u128;
    high as u128 * by.high as u128 + carries
}
