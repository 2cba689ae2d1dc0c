//! Laws about rotas and their lines.
ghost use Rattle.rota_rows.specs.Lines.{RotaLinesAreExact};
ghost use Rattle.rota_rows.specs.Rotas.{RotasGoOn};

use texts::{cuts_are_exact, numbers_are_exact, signed_points_are_exact};

/// Slices that are cut anywhere leave each match where they leave it uncut, and each stands where it would
/// stand alone.
pub fn rotas_go_on()
    ensures { RotasGoOn }
{}

/// What is in range is read from its line's text, in which no LF stands.
pub fn rota_lines_are_exact()
    ensures { RotaLinesAreExact }
{
    cuts_are_exact();
    numbers_are_exact();
    signed_points_are_exact();
}
