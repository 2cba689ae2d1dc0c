//! The law of checkpoints.
ghost use Rattle.checkpoint.specs.Exact.{CheckpointsAreExact};

use rota_rows::rota_lines_are_exact;
use texts::{cuts_are_exact, numbers_are_exact, signed_points_are_exact};

/// The text of rows in range is read as these rows, and bytes that are read as rows are exactly their text.
pub fn checkpoints_are_exact()
    ensures { CheckpointsAreExact }
{
    cuts_are_exact();
    numbers_are_exact();
    rota_lines_are_exact();
    signed_points_are_exact();
}
