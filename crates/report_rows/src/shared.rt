//! What the tests of texts share.
ghost use Rattle.std.specs.Prelude.{IfOk};
ghost use Rattle.report_rules.specs.Valid.{IsValid};

use lab_report::{Report, ReportError, read_report, write_report};
use std::alloc::{AllocError, Global};
use std::test::Fail;

/// The text of these lines, with another text in place of the one at a place.
pub(crate) fn changed(
    alloc: Global,
    lines: &[&str],
    place: usize,
    new: &str,
) -> Result<String, AllocError> {
    let mut text = String::new(alloc);
    for (k, line) in lines.iter().enumerate() {
        text.push_str(if k == place { new } else { line })?;
    }
    Ok(text)
}

/// Reads a text that isn't too long for a test.
pub(crate) fn read(alloc: Global, bytes: &[u8]) -> Result<Report, ReportError>
    ensures { IfOk result IsValid }
{
    if bytes.len() < 1_000_000 {
        read_report(alloc, bytes)
    } else {
        Err(ReportError::NoMemory)
    }
}

/// The line that reading a text refuses; 0 where it gives a report.
pub(crate) fn refused_line(alloc: Global, text: &str) -> Result<u32, Fail> {
    match read(alloc, text.as_bytes()) {
        Ok(_) => Ok(0),
        Err(ReportError::BadLine(number)) => Ok(number),
        Err(ReportError::NoMemory) => Err(Fail::from("no memory")),
    }
}

/// Checks that a report has this text.
pub(crate) fn check_text(alloc: Global, report: &Report, text: &str) -> Result<(), Fail>
    requires { IsValid report.now }
{
    let written = write_report(alloc, report)?;
    if written.as_slice() == text.as_bytes() {
        Ok(())
    } else {
        Err(Fail::from("another text"))
    }
}
