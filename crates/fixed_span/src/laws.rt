//! Laws about spans: the contract of each function is one law, and its body does nothing.
ghost use Rattle.fixed_span.specs.Lowered.{SpansAreLowered};
ghost use Rattle.fixed_span.specs.Texts.{SpansAreExact};
ghost use Rattle.fixed_span.specs.Verdict.{VerdictsAreTrue};

/// The verdict of two spans is true of any two numbers that they hold.
pub fn verdicts_are_true()
    ensures { VerdictsAreTrue }
{}

/// A span is read from a text exactly where it is shown by it, which is digits and `.` alone.
pub fn spans_are_exact()
    ensures { SpansAreExact }
{}

/// Spans that are lowered alike keep their verdict, and each its width; it holds what it held, less that.
pub fn spans_are_lowered()
    ensures { SpansAreLowered }
{}
