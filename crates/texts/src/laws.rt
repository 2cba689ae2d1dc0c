//! Laws about texts: the contract of each function is one law, and its body does nothing.
ghost use Rattle.texts.specs.Cuts.{CutsAreExact};
ghost use Rattle.texts.specs.Grammar.{LinesAreReadInTurn, ReadingIsExact, RefusalIsExact};
ghost use Rattle.texts.specs.Numbers.{NumbersAreExact, PointsAreExact};
ghost use Rattle.texts.specs.Signed.{SignedPointsAreExact};

/// A text is cut at the first byte of a kind, and two texts without such a byte have none together.
pub fn cuts_are_exact()
    ensures { CutsAreExact }
{}

/// A text is read as a number exactly where it is the number's decimal text, which is digits alone.
pub fn numbers_are_exact()
    ensures { NumbersAreExact }
{}

/// A point is read from a text exactly where its text stands in front, which is digits and one `.`.
pub fn points_are_exact()
    ensures { PointsAreExact }
{}

/// A point with a sign is read from a text exactly where its text stands in front, which is digits, one
/// `.` and a `-`.
pub fn signed_points_are_exact()
    ensures { SignedPointsAreExact }
{}

/// Of a text whose grammar has the states `S` and the lines `I` a line is read, and then the pieces
/// behind it.
pub fn lines_are_read_in_turn<S, I>()
    ensures { LinesAreReadInTurn S I }
{}

/// Reading ends in a state exactly where the bytes are lines, each allowed by those before it, that
/// lead there.
pub fn reading_is_exact<S, I>()
    ensures { ReadingIsExact S I }
{}

/// Reading answers a line's number exactly where that line is the first that is not allowed: a line
/// out of place, a missing one, one that no LF ends, or anything behind the end.
pub fn refusal_is_exact<S, I>()
    ensures { RefusalIsExact S I }
{}
