//! The texts of spans.
ghost use Rattle.std.specs.Prelude.{◌≡◌, ◌++◌, Some, IfOk, OnOk, string_bytes};
ghost use Rattle.fixed_span.specs.Texts.{IsDecimals, IsShown, span_text};

use crate::Span;
use history_model::NoMemory;
use std::alloc::{AllocError, Global};
use std::fmt;
use texts::{Chance, Score};

/// A span of scores with ends from 0 to 10^37: it is shown with twelve decimals, a point once and any
/// other span by both ends with `..` between.
#[derive(Clone, Copy, Debug, PartialEq, Eq)]
pub struct ScoreSpan {
    pub span: Span,
    pub ghost shown: { IsShown span },
}

impl fmt::Display for ScoreSpan {
    ghost output = { λ score. Some (span_text 12 score.span) };

    fn fmt<W: fmt::Write>(&self, f: &mut fmt::Formatter<W>) -> fmt::Result {
        let (lo, hi) = self.span.ends();
        let low = Score { units: lo as u128 };
        let high = Score { units: hi as u128 };
        if lo == hi {
            write!(f, "{low}")
        } else {
            write!(f, "{low}..{high}")
        }
    }
}

/// A span of chances with ends from 0 to 10^37: it is shown with nine decimals, a point once and any
/// other span by both ends with `..` between.
#[derive(Clone, Copy, Debug, PartialEq, Eq)]
pub struct ChanceSpan {
    pub span: Span,
    pub ghost shown: { IsShown span },
}

impl fmt::Display for ChanceSpan {
    ghost output = { λ chance. Some (span_text 9 chance.span) };

    fn fmt<W: fmt::Write>(&self, f: &mut fmt::Formatter<W>) -> fmt::Result {
        let (lo, hi) = self.span.ends();
        let low = Chance { units: lo as u128 };
        let high = Chance { units: hi as u128 };
        if lo == hi {
            write!(f, "{low}")
        } else {
            write!(f, "{low}..{high}")
        }
    }
}

/// Adds the text of a span with ends from 0 to 10^37 and 9 or 12 decimals. An `Err` is want of memory.
pub fn push_span(text: &mut String, span: &Span, decimals: u32) -> Result<(), AllocError>
    requires decimals { IsDecimals decimals }
    requires shown { IsShown span.now }
    ensures { OnOk result (string_bytes text.new ≡ string_bytes text.old ++ span_text decimals span.now) }
{
    if decimals == 9 {
        let chance = ChanceSpan { span: *span };
        write!(text, "{chance}")
    } else {
        let score = ScoreSpan { span: *span };
        write!(text, "{score}")
    }
}

/// The text of a span with ends from 0 to 10^37 and 9 or 12 decimals.
pub fn span_text(alloc: Global, span: Span, decimals: u32) -> Result<Vec<u8>, NoMemory>
    requires decimals { IsDecimals decimals }
    requires shown { IsShown span }
    ensures { IfOk result (λ bytes. bytes.items ≡ span_text decimals span) }
{
    let mut text = String::new(alloc);
    push_span(&mut text, &span, decimals)?;
    Ok(text.into_bytes())
}
