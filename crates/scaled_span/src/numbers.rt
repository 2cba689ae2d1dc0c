//! Numbers with an exponent, and what lies between two of them.
ghost use Rattle.std.specs.Prelude.{ℕ, ◌^◌, ◌≤◌};
ghost use Rattle.scaled_span.specs.Ratios.{AtMost, scaled};

/// The number `m`·2^`e`, where `m` is at least 2^63.
#[derive(Clone, Copy, Debug, PartialEq, Eq)]
pub struct Scaled {
    pub m: u64,
    pub e: i32,
    pub ghost normal: { 2 ^ 63 ≤ m },
}

/// What lies between two numbers with an exponent. `lo` is at most `hi`.
#[derive(Clone, Copy, Debug, PartialEq, Eq)]
pub struct ScaledSpan {
    pub lo: Scaled,
    pub hi: Scaled,
    pub ghost ordered: { AtMost (scaled lo.m lo.e) (scaled hi.m hi.e) },
}
