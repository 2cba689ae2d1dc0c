//! What meetings add to fitness, from the spans of scores.
ghost use Rattle.std.specs.Prelude.{◌≡◌, ℕ, ◌+◌, ◌-◌, ◌*◌, ◌^◌, ◌<◌, ◌≤◌, ℤ, pos, ◌+ℤ◌, ◌*ℤ◌, ◌≤ℤ◌, neg_ℤ};
ghost use Rattle.fixed_span.specs.Span.{Ends, score_units};
ghost use Rattle.scaled_span.specs.Values.{IsBetween};
ghost use Rattle.moran_chain.specs.Fixation.{worth_of, GivesFitness};
ghost use Rattle.moran_chain.specs.Ranges.{IsNarrow};

use crate::ranges::Range;
use fixed_span::Span;

const UNIT: u128 = 1_000_000_000_000;

// k * turns * 10^12
fn base(k: u32, turns: u64) -> i128
    requires k { k ≤ 100 }
    requires few { turns ≤ 10 ^ 12 }
    ensures value { result ≡ pos (k * (turns * score_units)) }
    ensures bound { result ≤ℤ pos (10 ^ 26) }
{
    (k as u128 * (turns as u128 * UNIT)) as i128
}

// wn * end
fn weighed(wn: u32, end: i128) -> i128
    requires wn { wn ≤ 100 }
    requires within { IsBetween (neg_ℤ (pos (10 ^ 30))) (pos (10 ^ 30)) end }
    ensures value { result ≡ pos wn *ℤ end }
    ensures within { IsBetween (neg_ℤ (pos (10 ^ 32))) (pos (10 ^ 32)) result }
{
    wn as i128 * end
}

// What a score over all turns adds to fitness, over wd * turns * 10^12.
fn worth(end: i128, turns: u64, wn: u32, wd: u32) -> u128
    requires turns { 1 ≤ turns }
    requires few { turns ≤ 10 ^ 12 }
    requires wd { wd ≤ 100 }
    requires wn { wn ≤ wd }
    requires high { end ≤ℤ pos (turns * 10 ^ 18) }
    requires enough { pos (turns * score_units) ≤ℤ worth_of wn wd (turns * score_units) end }
    ensures value { pos result ≡ worth_of wn wd (turns * score_units) end }
    ensures bound { result ≤ 10 ^ 33 }
{
    let first = base(wd - wn, turns);
    if wn == 0 {
        return first as u128;
    }
    let second = weighed(wn, end);
    (first + second) as u128
}

/// What a score over all turns adds to fitness, over wd·turns·10^12.
pub fn range_of(span: Span, turns: u64, wn: u32, wd: u32) -> Range
    requires turns { 1 ≤ turns }
    requires few { turns ≤ 10 ^ 12 }
    requires wd { wd ≤ 100 }
    requires wn { wn ≤ wd }
    requires span { GivesFitness turns wn wd span }
    ensures lo { pos result.lo ≡ worth_of wn wd (turns * score_units) span.lo }
    ensures hi { pos result.hi ≡ worth_of wn wd (turns * score_units) span.hi }
    ensures point { span.lo ≡ span.hi → IsNarrow 0 result }
    ensures narrow { IsNarrow (wn * 2305844) result }
{
    let (lo, hi) = span.ends();
    Range {
        lo: worth(lo, turns, wn, wd),
        hi: worth(hi, turns, wn, wd),
    }
}
