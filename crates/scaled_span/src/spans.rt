//! The operations on spans: each end is rounded outward.
use crate::billionths::{ceiling_billionths, floor_billionths};
use crate::ends::{add_one_down, add_one_up, div_down, div_up, is_exponent, mul_down, mul_up};
use crate::numbers::ScaledSpan;
use crate::rounding::{rounded_down, rounded_up};

impl ScaledSpan {
    ghost use Rattle.std.specs.Prelude.{◌≡◌, ◌↔◌, ℕ, ◌+◌, ◌-◌, ◌*◌, ◌^◌, ◌<◌, ◌≤◌, IsTrue};
    ghost use Rattle.scaled_span.specs.Ratios.{Ratio, AtMost, whole, times, over, plus_one, share_of};
    ghost use Rattle.scaled_span.specs.Values.{value, ExponentsWithin, EndsAreClose, IsIn, IsBelow, IsAbove, IsFloorOf, IsCappedCeiling};

    /// Whether both exponents lie between -2,000,000 and 2,000,000. Every operation asks for it.
    pub fn within(&self) -> bool
        ensures { IsTrue result ↔ ExponentsWithin 2000000 self.now }
    {
        is_exponent(self.lo.e) && is_exponent(self.hi.e)
    }

    /// What lies between two whole numbers, the lower at least 1.
    pub fn from_whole(lo: u128, hi: u128) -> ScaledSpan
        requires some { 1 ≤ lo }
        requires ordered { lo ≤ hi }
        ensures lo { IsBelow 1 result.lo (whole lo) }
        ensures hi { IsAbove 1 result.hi (whole hi) }
        ensures contains { (x : Ratio) → AtMost (whole lo) x → AtMost x (whole hi) → IsIn result x }
        ensures tight { (n : ℕ) → hi * (2 ^ 61 - n) ≤ lo * 2 ^ 61 → EndsAreClose (n + 2) result }
        ensures exponents { ExponentsWithin 70 result }
    {
        ScaledSpan {
            lo: rounded_down(lo, 0),
            hi: rounded_up(hi, 0),
        }
    }

    /// The products.
    pub fn mul(self, other: ScaledSpan) -> ScaledSpan
        requires self_within { ExponentsWithin 2000000 self }
        requires other_within { ExponentsWithin 2000000 other }
        ensures lo { IsBelow 1 result.lo (times (value self.lo) (value other.lo)) }
        ensures hi { IsAbove 1 result.hi (times (value self.hi) (value other.hi)) }
        ensures contains { (x y : Ratio) → IsIn self x → IsIn other y → IsIn result (times x y) }
        ensures tight { (n m : ℕ) → EndsAreClose n self → EndsAreClose m other → EndsAreClose (n + m + 2) result }
        ensures exponents { (j k : ℕ) → ExponentsWithin j self → ExponentsWithin k other → ExponentsWithin (j + k + 140) result }
    {
        ScaledSpan {
            lo: mul_down(self.lo, other.lo),
            hi: mul_up(self.hi, other.hi),
        }
    }

    /// The quotients.
    pub fn div(self, other: ScaledSpan) -> ScaledSpan
        requires self_within { ExponentsWithin 2000000 self }
        requires other_within { ExponentsWithin 2000000 other }
        ensures lo { IsBelow 1 result.lo (over (value self.lo) (value other.hi)) }
        ensures hi { IsAbove 1 result.hi (over (value self.hi) (value other.lo)) }
        ensures contains { (x y : Ratio) → IsIn self x → IsIn other y → IsIn result (over x y) }
        ensures tight { (n m : ℕ) → EndsAreClose n self → EndsAreClose m other → EndsAreClose (n + m + 2) result }
        ensures exponents { (j k : ℕ) → ExponentsWithin j self → ExponentsWithin k other → ExponentsWithin (j + k + 140) result }
    {
        ScaledSpan {
            lo: div_down(self.lo, other.hi),
            hi: div_up(self.hi, other.lo),
        }
    }

    /// Each number and 1 more.
    pub fn add_one(self) -> ScaledSpan
        requires within { ExponentsWithin 2000000 self }
        ensures lo { IsBelow 1 result.lo (plus_one (value self.lo)) }
        ensures hi { IsAbove 1 result.hi (plus_one (value self.hi)) }
        ensures contains { (x : Ratio) → IsIn self x → IsIn result (plus_one x) }
        ensures tight { (n : ℕ) → EndsAreClose n self → EndsAreClose (n + 2) result }
        ensures exponents { (k : ℕ) → ExponentsWithin k self → ExponentsWithin (k + 70) result }
    {
        ScaledSpan {
            lo: add_one_down(self.lo),
            hi: add_one_up(self.hi),
        }
    }

    /// t / (1 + t) for each number t.
    pub fn share(self) -> ScaledSpan
        requires within { ExponentsWithin 2000000 self }
        ensures lo { IsBelow 1 result.lo (share_of (value self.lo)) }
        ensures hi { IsAbove 1 result.hi (share_of (value self.hi)) }
        ensures contains { (x : Ratio) → IsIn self x → IsIn result (share_of x) }
        ensures tight { (n : ℕ) → EndsAreClose n self → EndsAreClose (n + 2) result }
        ensures exponents { (k : ℕ) → ExponentsWithin k self → ExponentsWithin (2 * k + 210) result }
    {
        let more = add_one_up(self.lo);
        let less = add_one_down(self.hi);
        ScaledSpan {
            lo: div_down(self.lo, more),
            hi: div_up(self.hi, less),
        }
    }

    /// Both ends in billionths, for a span that begins at 1 or below: the floor of 10^9·`lo`, and the
    /// ceiling of 10^9·`hi`, but at most 10^9.
    pub fn billionths(self) -> (u64, u64)
        requires within { ExponentsWithin 2000000 self }
        requires chance { AtMost (value self.lo) (whole 1) }
        ensures lo { IsFloorOf (10 ^ 9) (value self.lo) result.0 }
        ensures hi { IsCappedCeiling (10 ^ 9) (value self.hi) result.1 }
        ensures ordered { result.0 ≤ result.1 }
    {
        (floor_billionths(self.lo), ceiling_billionths(self.hi))
    }
}
