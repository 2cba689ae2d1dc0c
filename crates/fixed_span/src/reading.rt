//! Spans out of their texts.
ghost use Rattle.std.specs.Prelude.{◌≡◌, ◌≢◌, ◌≤◌, ◌^◌, IfSome, IfNone};
ghost use Rattle.fixed_span.specs.Span.{Ends};
ghost use Rattle.fixed_span.specs.Texts.{IsDecimals, IsShown, above, span_from, span_of, span_text};

use crate::Span;
use texts::point_at;

fn above(lo: u128, hi: u128, rest: &[u8]) -> Option<Span>
    requires { hi ≤ 10 ^ 37 }
    ensures { result ≡ above lo (hi, rest.now) }
{
    if rest.len() == 0 && lo < hi {
        Some(Span {
            lo: lo as i128,
            hi: hi as i128,
        })
    } else {
        None
    }
}

fn span_from(lo: u128, rest: &[u8], decimals: u32) -> Option<Span>
    requires decimals { IsDecimals decimals }
    requires bound { lo ≤ 10 ^ 37 }
    ensures { result ≡ span_from decimals lo rest.now }
{
    match rest {
        [] => Some(Span::point(lo as i128)),
        [_] => None,
        [first, second, more @ ..] => {
            if *first != b'.' || *second != b'.' {
                return None;
            }
            let (hi, after) = point_at(more, decimals)?;
            above(lo, hi, after)
        }
    }
}

#[tactic(auto, unfolding(crate::specs::Texts::span_of))]
fn span_of(text: &[u8], decimals: u32) -> Option<Span>
    requires { IsDecimals decimals }
    ensures { result ≡ span_of decimals text.now }
{
    let (lo, rest) = point_at(text, decimals)?;
    span_from(lo, rest, decimals)
}

/// The span with ends from 0 to 10^37 units that a text with 9 or 12 decimals is the text of; `None`
/// for every other text. Takes no memory.
pub fn read_span(text: &[u8], decimals: u32) -> Option<Span>
    requires { IsDecimals decimals }
    ensures value { result ≡ span_of decimals text.now }
    ensures found { IfSome result (λ span. IsShown span × (text.now ≡ span_text decimals span)) }
    ensures none { IfNone result ((span : Ends) → IsShown span → text.now ≢ span_text decimals span) }
{
    span_of(text, decimals)
}
