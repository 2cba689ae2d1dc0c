//! Numbers of up to 128 bits, rounded to 64.
ghost use Rattle.std.specs.Prelude.{◌≡◌, ℕ, ◌+◌, ◌*◌, ◌^◌, ◌<◌, ◌≤◌, ℤ, pos, neg_ℤ, ◌≤ℤ◌, ◌+ℤ◌, true};
ghost use Rattle.scaled_span.specs.Ratios.{AtMost, IsClose, scaled};
ghost use Rattle.scaled_span.specs.Values.{value, ExponentWithin, IsBetween};

use crate::numbers::Scaled;

// p without its last k bits.
fn cut(p: u128, k: u32) -> u64
    requires low { 2 ^ 63 * 2 ^ k ≤ p }
    requires high { p < 2 ^ 64 * 2 ^ k }
    requires bits { k < 65 }
    ensures below { result * 2 ^ k ≤ p }
    ensures above { p < result * 2 ^ k + 2 ^ k }
    ensures normal { 2 ^ 63 ≤ result }
{
    let m = p >> k;
    m as u64
}

// p with k bits more.
fn grown(p: u128, k: u32) -> u64
    requires high { p * 2 ^ k < 2 ^ 64 }
    requires bits { k < 64 }
    ensures { result ≡ p * 2 ^ k }
{
    (p << k) as u64
}

// Whether p has no bits below m * 2^k.
fn is_whole(m: u64, p: u128, k: u32) -> bool
    requires below { m * 2 ^ k ≤ p }
    requires bits { k < 65 }
    ensures { result ≡ true → m * 2 ^ k ≡ p }
{
    (m as u128) << k == p
}

// e + k
fn raised(e: i32, k: u32) -> i32
    requires within { ExponentWithin 4100000 e }
    requires bits { k < 300 }
    ensures { result ≡ e +ℤ pos k }
{
    e + k as i32
}

// e - k
fn lowered(e: i32, k: u32) -> i32
    requires within { ExponentWithin 4100000 e }
    requires bits { k < 300 }
    ensures { e ≡ result +ℤ pos k }
{
    e - k as i32
}

// p * 2^e, rounded down.
pub fn rounded_down(p: u128, e: i32) -> Scaled
    requires some { 0 < p }
    requires within { ExponentWithin 4100000 e }
    ensures below { AtMost (value result) (scaled p e) }
    ensures close { IsClose (2 ^ 63) 1 (value result) (scaled p e) }
    ensures exponent { IsBetween (e +ℤ neg_ℤ (pos 63)) (e +ℤ pos 64) result.e }
{
    let high = p.ilog2();
    if high < 63 {
        let less = 63 - high;
        let m = grown(p, less);
        return Scaled {
            m,
            e: lowered(e, less),
        };
    }
    let k = high - 63;
    let m = cut(p, k);
    Scaled { m, e: raised(e, k) }
}

// p * 2^e, rounded up.
pub fn rounded_up(p: u128, e: i32) -> Scaled
    requires some { 0 < p }
    requires within { ExponentWithin 4100000 e }
    ensures above { AtMost (scaled p e) (value result) }
    ensures close { IsClose (2 ^ 63) 1 (scaled p e) (value result) }
    ensures exponent { IsBetween (e +ℤ neg_ℤ (pos 63)) (e +ℤ pos 66) result.e }
{
    let high = p.ilog2();
    if high < 63 {
        let less = 63 - high;
        let m = grown(p, less);
        return Scaled {
            m,
            e: lowered(e, less),
        };
    }
    let k = high - 63;
    let m = cut(p, k);
    if is_whole(m, p, k) {
        return Scaled { m, e: raised(e, k) };
    }
    if m == u64::MAX {
        return Scaled {
            m: 1 << 63,
            e: raised(e, k + 1),
        };
    }
    Scaled {
        m: m + 1,
        e: raised(e, k),
    }
}
