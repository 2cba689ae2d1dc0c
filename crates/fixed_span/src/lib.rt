//! Spans: numbers that are held between two whole ends, rounded outward, and their texts.
#![tactic(auto)]

mod laws;
mod mixing;
mod ordering;
mod reading;
mod span;
mod writing;

pub use laws::{spans_are_exact, spans_are_lowered, verdicts_are_true};
pub use mixing::mix;
pub use ordering::{Verdict, compare};
pub use reading::read_span;
pub use span::Span;
pub use writing::{ChanceSpan, ScoreSpan, push_span, span_text};
