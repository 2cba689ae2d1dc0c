//! Laws about lines.
ghost use Rattle.report_lines.specs.Reading.{LinesAreExact};

use texts::{cuts_are_exact, numbers_are_exact, signed_points_are_exact};

/// Exactly the texts of lines in range are read, and none of them has an LF.
pub fn lines_are_exact()
    ensures { LinesAreExact }
{
    cuts_are_exact();
    numbers_are_exact();
    signed_points_are_exact();
}
