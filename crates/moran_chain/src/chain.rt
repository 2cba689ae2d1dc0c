//! The chance of fixation as a span: sums and products of the odds of a step down against a step up.
ghost use Rattle.std.specs.Prelude.{◌≡◌, ℕ, ◌+◌, ◌-◌, ◌*◌, ◌^◌, ◌<◌, ◌≤◌};
ghost use Rattle.scaled_span.specs.Ratios.{Ratio, AtMost, whole, times, over, share_of};
ghost use Rattle.scaled_span.specs.Values.{value, IsIn, ExponentsWithin, EndsAreClose};
ghost use Rattle.moran_chain.specs.Moran.{odds, product_to, fix};
ghost use Rattle.moran_chain.specs.Ranges.{Worths, AllLie, AllNarrow, first_worth, second_worth, nested};

use crate::ranges::{Range, Ranges};
use scaled_span::ScaledSpan;

// x * j + y * k
fn mixed(x: u128, y: u128, j: u32, k: u32) -> u128
    requires x { x ≤ 10 ^ 33 }
    requires y { y ≤ 10 ^ 33 }
    requires j { j ≤ 1000 }
    requires k { k ≤ 1000 }
    ensures { result ≡ x * j + y * k }
{
    x * j as u128 + y * k as u128
}

// What j meetings of the one kind and k of the other add to fitness.
fn both(x: Range, y: Range, j: u32, k: u32) -> ScaledSpan
    requires j { j ≤ 1000 }
    requires k { k ≤ 1000 }
    requires some { 0 < j + k }
    ensures holds { (p q den : ℕ) → x.lo * den ≤ p → p ≤ x.hi * den → y.lo * den ≤ q → q ≤ y.hi * den → IsIn result (record { num = p * j + q * k; den = den }) }
    ensures tight { (n : ℕ) → x.hi * (2 ^ 61 - n) ≤ x.lo * 2 ^ 61 → y.hi * (2 ^ 61 - n) ≤ y.lo * 2 ^ 61 → EndsAreClose (n + 2) result }
    ensures exponents { ExponentsWithin 70 result }
{
    ScaledSpan::from_whole(mixed(x.lo, y.lo, j, k), mixed(x.hi, y.hi, j, k))
}

// The fitness of the second type over that of the first, where j are of the first.
fn ratio(t: &Ranges, m: u32, j: u32) -> ScaledSpan
    requires m { m ≤ 1000 }
    requires some { 0 < j }
    requires below { j < m }
    ensures holds { (v : Worths) → AllLie t.now v → IsIn result (odds (first_worth v m) (second_worth v m) j) }
    ensures tight { (n : ℕ) → AllNarrow n t.now → EndsAreClose (2 * n + 6) result }
    ensures exponents { ExponentsWithin 280 result }
{
    let f = both(t.a, t.b, j - 1, m - j);
    let g = both(t.c, t.d, j, m - j - 1);
    g.div(f)
}

// 1 + r (i + 1) * (1 + r (i + 2) * .. (1 + r (m - 1))), from the inside.
fn later_sum(t: &Ranges, m: u32, i: u32) -> ScaledSpan
    requires m { m ≤ 1000 }
    requires below { i < m }
    ensures holds { (v : Worths) → AllLie t.now v → IsIn result (nested (first_worth v m) (second_worth v m) i (m - 1 - i)) }
    ensures tight { (n : ℕ) → AllNarrow n t.now → EndsAreClose ((2 * n + 10) * (m - 1 - i) + 2) result }
    ensures exponents { ExponentsWithin (490 * (m - 1 - i) + 70) result }
{
    let mut sum = ScaledSpan::from_whole(1, 1);
    let mut j = m - 1;
    while j > i {
        let r = ratio(t, m, j);
        let part = r.mul(sum);
        sum = part.add_one();
        j -= 1;
    }
    sum
}

// 1 + r 1 * (1 + r 2 * .. (1 + r (i - 1))), from the inside, and r 1 * r 2 * .. r i.
fn first_sum(t: &Ranges, m: u32, i: u32) -> (ScaledSpan, ScaledSpan)
    requires m { m ≤ 1000 }
    requires some { 0 < i }
    requires below { i < m }
    ensures holds { (v : Worths) → AllLie t.now v → IsIn result.0 (nested (first_worth v m) (second_worth v m) 0 (i - 1)) }
    ensures product { (v : Worths) → AllLie t.now v → IsIn result.1 (product_to (first_worth v m) (second_worth v m) i) }
    ensures tight { (n : ℕ) → AllNarrow n t.now → EndsAreClose ((2 * n + 10) * (i - 1) + 2) result.0 }
    ensures product_tight { (n : ℕ) → AllNarrow n t.now → EndsAreClose ((2 * n + 8) * i) result.1 }
    ensures exponents { ExponentsWithin (490 * (i - 1) + 70) result.0 }
    ensures product_exponents { ExponentsWithin (420 * i) result.1 }
{
    let mut sum = ScaledSpan::from_whole(1, 1);
    let mut product = ratio(t, m, i);
    let mut k = i - 1;
    while k > 0 {
        let r = ratio(t, m, k);
        let part = r.mul(sum);
        sum = part.add_one();
        product = r.mul(product);
        k -= 1;
    }
    (sum, product)
}

/// The chance that i of m individuals take over: the share of the first sum over the rest.
pub fn chance_span(t: &Ranges, m: u32, i: u32) -> ScaledSpan
    requires m { m ≤ 1000 }
    requires some { 0 < i }
    requires below { i < m }
    ensures holds { (v : Worths) → AllLie t.now v → IsIn result (fix (first_worth v m) (second_worth v m) m i) }
    ensures tight { (n : ℕ) → AllNarrow n t.now → EndsAreClose (m * (4 * n + 18) + 12) result }
    ensures share { AtMost (value result.lo) (whole 1) }
    ensures exponents { ExponentsWithin 2000000 result }
{
    let (first, product) = first_sum(t, m, i);
    let later = later_sum(t, m, i);
    let rest = product.mul(later);
    let odds = first.div(rest);
    odds.share()
}
