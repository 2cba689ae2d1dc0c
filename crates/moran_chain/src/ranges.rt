//! Ranges of what meetings add to fitness.
ghost use Rattle.std.specs.Prelude.{ℕ, ◌^◌, ◌<◌, ◌≤◌};

/// What a meeting adds to fitness, in a unit.
#[derive(Clone, Copy)]
pub struct Range {
    pub lo: u128,
    pub hi: u128,
    pub ghost some: { 0 < lo },
    pub ghost ordered: { lo ≤ hi },
    pub ghost bounded: { hi ≤ 10 ^ 33 },
}

/// The ranges of the four meetings, in one unit: first with first, first with second, second with
/// first, second with second.
#[derive(Clone, Copy)]
pub struct Ranges {
    pub a: Range,
    pub b: Range,
    pub c: Range,
    pub d: Range,
}
