//! Which of two spans is greater.
ghost use Rattle.std.specs.Prelude.{◌≡◌};
ghost use Rattle.fixed_span.specs.Verdict.{verdict};

use crate::Span;

/// What is known of two numbers that two spans hold.
#[derive(Clone, Copy, Debug, PartialEq, Eq)]
pub enum Verdict {
    /// The first is less.
    Less,
    /// The first is greater.
    Greater,
    /// They are equal: all four ends are one number.
    Level,
    /// The spans overlap, and aren't one equal point.
    Undecided,
}

/// The verdict of two spans.
pub fn compare(a: Span, b: Span) -> Verdict
    ensures { result ≡ verdict a b }
{
    let (a_lo, a_hi) = a.ends();
    let (b_lo, b_hi) = b.ends();
    if a_hi < b_lo {
        Verdict::Less
    } else if b_hi < a_lo {
        Verdict::Greater
    } else if a_lo == a_hi && b_lo == b_hi && a_lo == b_lo {
        Verdict::Level
    } else {
        Verdict::Undecided
    }
}
