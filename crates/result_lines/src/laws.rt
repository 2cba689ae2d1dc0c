//! Laws about lines: the contract of each function is one law, and its body does nothing.
ghost use Rattle.result_lines.specs.Lowered.{TotalsAreLowered};

use fixed_span::spans_are_lowered;

/// Where each payoff is less by an offset, the total of an entry is less by it for each turn of each of its
/// matches, of a match with itself once; it wins and leaves undecided the same matches.
pub fn totals_are_lowered()
    ensures { TotalsAreLowered }
{
    spans_are_lowered();
}
