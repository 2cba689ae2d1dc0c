//! Writes reports.
ghost use Rattle.std.specs.Prelude.{◌≡◌, ◌++◌, ◌∷◌, [], true, IfOk, OnOk, string_bytes};
ghost use Rattle.report_lines.specs.Texts.{is_line};
ghost use Rattle.report_rules.specs.Text.{report_text, text_of_lines};
ghost use Rattle.report_rules.specs.Valid.{IsValid};

use crate::lines::line_at;
use history_model::NoMemory;
use report_lines::{Line, push_line};
use report_rules::Report;
use std::alloc::{AllocError, Global};

/// Adds the text of a line, with the LF that ends it.
pub(crate) fn add_line(text: &mut String, line: &Line) -> Result<(), AllocError>
    requires { is_line line.now ≡ true }
    ensures { OnOk result (string_bytes text.new ≡ string_bytes text.old ++ text_of_lines (line.now ∷ [])) }
{
    push_line(text, line)?;
    text.push_str("\n")
}

/// The text of a report. The time is linear in its length.
///
/// # Errors
///
/// `NoMemory` alone.
pub fn write_report(alloc: Global, report: &Report) -> Result<Vec<u8>, NoMemory>
    requires valid { IsValid report.now }
    ensures text { IfOk result (λ bytes. bytes.items ≡ report_text report.now) }
{
    let mut text = String::new(alloc);
    let mut place = 0;
    while let Some(line) = line_at(report, place) {
        add_line(&mut text, &line)?;
        place += 1;
    }
    Ok(text.into_bytes())
}
