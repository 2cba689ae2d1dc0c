//! Reads reports, each from its one text.
ghost use Rattle.std.specs.Prelude.{ℕ, ◌≡◌, ◌-◌, ◌<◌, ◌^◌, false, length, IfOk, IfErr, IfSome, IfNone};
ghost use Rattle.texts.specs.Grammar.{pieces, read_on, step};
ghost use Rattle.report_lines.specs.Reading.{line_of};
ghost use Rattle.report_rules.specs.declared.report.Report.{Report};
ghost use Rattle.report_rules.specs.declared.reading.ReportError.TheVariants.{NoMemory};
ghost use Rattle.report_rules.specs.declared.state.State.TheVariants.{Start};
ghost use Rattle.report_rules.specs.Grammar.{StateHasRoom, grammar, is_ended};
ghost use Rattle.report_rules.specs.Read.{Gives, IfBad, IsBadLine, Reading, Refuses, whole};
ghost use Rattle.report_rules.specs.Text.{report_text};
ghost use Rattle.report_rules.specs.Valid.{IsValid, OneReportAText};

use crate::Report;
use crate::rules::{after, allows};
use crate::state::State;
use report_lines::{Line, line_of, lines_are_exact};
use std::alloc::{AllocError, Global};
use texts::{first_line, lines_are_read_in_turn, reading_is_exact, refusal_is_exact};

/// Why bytes are no report.
#[derive(Clone, Copy, Debug, PartialEq, Eq)]
pub enum ReportError {
    /// The line of this number, counted from 1, is the first that doesn't stand where it does in any
    /// report. A line that is missing is the one after the last; what no LF ends is no line.
    BadLine(u32),
    /// Want of memory.
    NoMemory,
}

impl From<AllocError> for ReportError {
    ghost from_gives = { λ _ error. error ≡ NoMemory };

    fn from(_: AllocError) -> ReportError {
        ReportError::NoMemory
    }
}

impl From<history_model::NoMemory> for ReportError {
    ghost from_gives = { λ _ error. error ≡ NoMemory };

    fn from(_: history_model::NoMemory) -> ReportError {
        ReportError::NoMemory
    }
}

// The report that all lines led to; `None` where its last line is missing.
fn report_of(state: State) -> Option<Report>
    ensures whole { IfSome result (λ report. state ≡ whole report) }
    ensures missing { IfNone result (is_ended state ≡ false) }
{
    match state {
        State::Ended {
            head,
            noises,
            names,
            body,
        } => Some(Report {
            version: head.version,
            offset: head.offset,
            game: head.game,
            noise: head.noise,
            noises,
            names,
            body,
        }),
        _ => None,
    }
}

// What the text of a line leaves behind those that led to a state; `None` where it can't stand there.
fn step(
    alloc: Global,
    buffer: &mut String,
    state: State,
    text: &[u8],
) -> Result<Option<State>, ReportError>
    requires room { StateHasRoom state }
    ensures step { IfOk result (λ next. next ≡ step grammar line_of state text.now) }
    ensures room { IfOk result (λ next. IfSome next StateHasRoom) }
    ensures error { IfErr result (λ error. error ≡ NoMemory) }
{
    let next = match line_of(buffer, text)? {
        None => return Ok(None),
        Some(next) => next,
    };
    if !allows(alloc, &state, &next)? {
        return Ok(None);
    }
    Ok(Some(after(alloc, state, next)?))
}

// Reads one line after the other.
fn read_lines(alloc: Global, bytes: &[u8]) -> Result<Report, ReportError>
    requires length { length bytes.now < 2 ^ 32 - 1 }
    ensures { Reading result (read_on grammar line_of Start 1 (pieces bytes.now)) }
{
    lines_are_read_in_turn::<State, Line>();
    let mut buffer = String::new(alloc);
    let mut state = State::Start;
    let mut rest = bytes;
    let mut number: u32 = 1;
    while let Some((text, more)) = first_line(rest) {
        state = match step(alloc, &mut buffer, state, text)? {
            None => return Err(ReportError::BadLine(number)),
            Some(next) => next,
        };
        rest = more;
        number += 1;
    }
    if !rest.is_empty() {
        return Err(ReportError::BadLine(number));
    }
    match report_of(state) {
        Some(report) => Ok(report),
        None => Err(ReportError::BadLine(number)),
    }
}

/// The valid report that the bytes are the text of. The time is linear in their number, and grows with the
/// square of the number of lines `own`, each of which is compared with those before it.
///
/// # Errors
///
/// `BadLine` exactly where there is no such report, and `NoMemory`.
pub fn read_report(alloc: Global, bytes: &[u8]) -> Result<Report, ReportError>
    requires length { length bytes.now < 2 ^ 32 - 1 }
    ensures found { IfOk result IsValid }
    ensures text { IfOk result (λ report. bytes.now ≡ report_text report) }
    ensures only { (report : Report) → IsValid report → bytes.now ≡ report_text report → Gives result report }
    ensures bad { IfBad result (IsBadLine bytes.now) }
    ensures bad_only { (number : ℕ) → IsBadLine bytes.now number → Refuses result number }
{
    lines_are_exact();
    reading_is_exact::<State, Line>();
    refusal_is_exact::<State, Line>();
    read_lines(alloc, bytes)
}

/// The law of texts: two valid reports with one text are equal.
pub fn one_report_a_text()
    ensures { OneReportAText }
{
    lines_are_exact();
    reading_is_exact::<State, Line>();
    refusal_is_exact::<State, Line>();
}
