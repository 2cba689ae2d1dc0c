//! Texts in pieces.
ghost use Rattle.report_rules.specs.Valid.{IsValid};

use lab_report::{Pieces, Report};
use std::alloc::Global;
use std::test::Fail;

/// Checks that the pieces of a report, of which all but the last have 4096 bytes, are this text, and
/// that behind them there is none.
pub(crate) fn check_pieces(alloc: Global, report: &Report, text: &str) -> Result<(), Fail>
    requires { IsValid report.now }
{
    let mut pieces = Pieces::new(alloc, report);
    let mut piece: Vec<u8> = Vec::new(alloc);
    for wanted in text.as_bytes().chunks(4096) {
        if !pieces.fill(&mut piece)? || piece.as_slice() != wanted {
            return Err(Fail::from("another piece"));
        }
    }
    if pieces.fill(&mut piece)? || !piece.is_empty() {
        return Err(Fail::from("one more piece"));
    }
    Ok(())
}
