//! What lies between two whole ends.
ghost use Rattle.std.specs.Prelude.{◌≡◌, ◌^◌, ◌≤◌, pos, neg_ℤ, ◌+ℤ◌, ◌-ℤ◌, ◌≤ℤ◌};
ghost use Rattle.fixed_span.specs.Lowered.{lowered};
ghost use Rattle.fixed_span.specs.Span.{add, IsSmall};

use std::marker::Model;

/// What lies between two whole ends, in a unit: 10^-12 for scores, 10^-9 for chances. `lo` is at most
/// `hi`; where they are equal the span is a point. Contracts see the two ends.
#[derive(Clone, Copy, Debug, PartialEq, Eq)]
pub struct Span {
    pub lo: i128,
    pub hi: i128,
}

impl Model for Span {
    ghost use Rattle.std.specs.Prelude.{◌≤ℤ◌};
    ghost use Rattle.fixed_span.specs.Span.{Ends};

    ghost Value = { Ends };

    ghost view = { λ s. record { lo = s.lo; hi = s.hi } };

    ghost invariant = { λ s. s.lo ≤ℤ s.hi };

    ghost inverse = { λ v. record { lo = v.lo; hi = v.hi } };
}

fn sum_of(a: i128, b: i128) -> i128
    requires low { neg_ℤ (pos (10 ^ 37)) ≤ℤ (a +ℤ b) }
    requires high { (a +ℤ b) ≤ℤ pos (10 ^ 37) }
    ensures { result ≡ a +ℤ b }
{
    a + b
}

fn added(a: Span, b: Span) -> Span
    requires { IsSmall (add a b) }
    ensures { result ≡ add a b }
{
    let (a_lo, a_hi) = a.ends();
    let (b_lo, b_hi) = b.ends();
    Span {
        lo: sum_of(a_lo, b_lo),
        hi: sum_of(a_hi, b_hi),
    }
}

fn difference_of(a: i128, by: u128) -> i128
    requires low { neg_ℤ (pos (10 ^ 37)) ≤ℤ a }
    requires high { a ≤ℤ pos (10 ^ 37) }
    requires few { by ≤ 10 ^ 37 }
    ensures { result ≡ a -ℤ pos by }
{
    a - by as i128
}

impl Span {
    ghost use Rattle.std.specs.Prelude.{ℕ, ℤ};
    ghost use Rattle.fixed_span.specs.Span.{point, add, over, Holds, IsSmall};

    /// The point at a number.
    pub fn point(v: i128) -> Span
        ensures { result ≡ point v }
    {
        Span { lo: v, hi: v }
    }

    /// Both ends, the lower first.
    pub fn ends(&self) -> (i128, i128)
        ensures lo { result.0 ≡ self.now.lo }
        ensures hi { result.1 ≡ self.now.hi }
        ensures ordered { result.0 ≤ℤ result.1 }
    {
        (self.lo, self.hi)
    }

    /// The sums of the ends, which hold the sum of any two numbers that the spans hold. All ends and
    /// both sums are from -10^37 to 10^37.
    pub fn add(self, other: Span) -> Span
        requires first { IsSmall self }
        requires second { IsSmall other }
        requires sums { IsSmall (add self other) }
        ensures sum { result ≡ add self other }
        ensures contains { (units : ℕ) (x y : ℤ) (denominator : ℕ) → Holds units self (over x denominator) → Holds units other (over y denominator) → Holds units result (over (x +ℤ y) denominator) }
    {
        added(self, other)
    }
    /// Both ends less by so many units, at most 10^37. The ends are from -10^37 to 10^37.
    pub fn lowered(&self, by: u128) -> Span
        requires ends { IsSmall self.now }
        requires few { by ≤ 10 ^ 37 }
        ensures { result ≡ lowered by self.now }
    {
        let (lo, hi) = self.ends();
        Span {
            lo: difference_of(lo, by),
            hi: difference_of(hi, by),
        }
    }
}
