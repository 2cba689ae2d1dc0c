//! The chance of fixation in billionths, and what it says.
ghost use Rattle.std.specs.Prelude.{◌≡◌, ℕ, ◌+◌, ◌-◌, ◌*◌, ◌/◌, ◌^◌, ◌<◌, ◌≤◌, ◌↔◌};
ghost use Rattle.fixed_span.specs.Span.{Ends, chance_units};
ghost use Rattle.moran_chain.specs.Fitness.{Scores, AreHeld};
ghost use Rattle.moran_chain.specs.Fixation.{GivesFitness, ArePoints, HoldsFixationOf, IsTrueVerdict, fixation_chance};

use crate::chain::chance_span;
use crate::ranges::Ranges;
use crate::worths::range_of;
use fixed_span::Span;

/// What is known of a chance of fixation from i of m individuals, against i/m.
#[derive(Clone, Copy, Debug, PartialEq, Eq)]
pub enum MoranVerdict {
    /// It is greater.
    Favoured,
    /// It is less.
    Opposed,
    /// It is i/m.
    Neutral,
    /// The span has i/m in it, and isn't that point.
    Undecided,
}

/// What lies between two numbers of billionths, and what is known of it.
#[derive(Clone, Copy, Debug, PartialEq, Eq)]
pub struct Chance {
    pub lo: u64,
    pub hi: u64,
    pub verdict: MoranVerdict,
}

fn verdict_of(lo: u64, hi: u64, m: u32, i: u32) -> MoranVerdict
    requires lo { lo ≤ 10 ^ 9 }
    requires hi { hi ≤ 10 ^ 9 }
    requires ordered { lo ≤ hi }
    requires m { m ≤ 1000 }
    requires i { i ≤ 1000 }
    ensures favoured { (result ≡ MoranVerdict.Favoured) ↔ (i * chance_units < lo * m) }
    ensures opposed { (result ≡ MoranVerdict.Opposed) ↔ (hi * m < i * chance_units) }
    ensures neutral { (result ≡ MoranVerdict.Neutral) ↔ ((lo * m ≡ i * chance_units) × (hi * m ≡ i * chance_units)) }
    ensures undecided { (result ≡ MoranVerdict.Undecided) ↔ ((lo * m ≤ i * chance_units) × (i * chance_units ≤ hi * m) × (lo * m < hi * m)) }
{
    let even = i as u64 * 1_000_000_000;
    let low = lo * m as u64;
    let high = hi * m as u64;
    if low > even {
        MoranVerdict::Favoured
    } else if high < even {
        MoranVerdict::Opposed
    } else if low == even && high == even {
        MoranVerdict::Neutral
    } else {
        MoranVerdict::Undecided
    }
}

/// The chance that i individuals of the first type take over a population of m in the Moran process
/// (Nowak, Evolutionary Dynamics, 2006), with intensity of selection wn/wd: `a` is the score of the first
/// type over all turns against the first, `b` against the second, `c` the score of the second type against
/// the first, and `d` against the second, in units of 10^-12. Turns are from 1 to 10^12, m from 2 to 1000,
/// i from 1 to m - 1, wd from 1 to 100, wn from 0 to wd. A span's upper end is at most turns·10^18 and its
/// width at most `turns`, and (wd - wn)·turns·10^12 + wn·lo is at least turns·10^12.
///
/// The answer holds the chance for all scores in the spans. It is at most 2 billionths wide where these
/// are points, and else at most 2 + wn·m/250.
pub fn fixation(
    a: Span,
    b: Span,
    c: Span,
    d: Span,
    turns: u64,
    m: u32,
    wn: u32,
    wd: u32,
    i: u32,
) -> Chance
    requires turns { 1 ≤ turns }
    requires few { turns ≤ 10 ^ 12 }
    requires pair { 2 ≤ m }
    requires m { m ≤ 1000 }
    requires some { 1 ≤ i }
    requires below { i < m }
    requires positive { 1 ≤ wd }
    requires wd { wd ≤ 100 }
    requires wn { wn ≤ wd }
    requires a { GivesFitness turns wn wd a }
    requires b { GivesFitness turns wn wd b }
    requires c { GivesFitness turns wn wd c }
    requires d { GivesFitness turns wn wd d }
    ensures holds { (s : Scores) → AreHeld a b c d s → HoldsFixationOf result.lo result.hi turns wn wd m i s }
    ensures ordered { result.lo ≤ result.hi }
    ensures most { result.hi ≤ chance_units }
    ensures points { ArePoints a b c d → result.hi ≤ result.lo + 2 }
    ensures narrow { result.hi ≤ result.lo + 2 + wn * m / 250 }
    ensures width { result.hi ≤ result.lo + 4 + (wn * m * m + 99) / 100 }
    ensures favoured { (result.verdict ≡ MoranVerdict.Favoured) ↔ (i * chance_units < result.lo * m) }
    ensures opposed { (result.verdict ≡ MoranVerdict.Opposed) ↔ (result.hi * m < i * chance_units) }
    ensures neutral { (result.verdict ≡ MoranVerdict.Neutral) ↔ ((result.lo * m ≡ i * chance_units) × (result.hi * m ≡ i * chance_units)) }
    ensures undecided { (result.verdict ≡ MoranVerdict.Undecided) ↔ ((result.lo * m ≤ i * chance_units) × (i * chance_units ≤ result.hi * m) × (result.lo * m < result.hi * m)) }
    ensures told { (s : Scores) → AreHeld a b c d s → IsTrueVerdict result.verdict (fixation_chance turns wn wd m i s) m i }
{
    let t = Ranges {
        a: range_of(a, turns, wn, wd),
        b: range_of(b, turns, wn, wd),
        c: range_of(c, turns, wn, wd),
        d: range_of(d, turns, wn, wd),
    };
    let span = chance_span(&t, m, i);
    let (lo, hi) = span.billionths();
    let verdict = verdict_of(lo, hi, m, i);
    Chance { lo, hi, verdict }
}
