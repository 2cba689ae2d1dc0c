//! Ranks by spans.
ghost use Rattle.std.specs.Prelude.{◌≡◌, ◌+◌, ◌<◌, ◌^◌, length, map, IfOk, count_by};
ghost use Rattle.std.specs.List.{list_any};
ghost use Rattle.fixed_span.specs.Verdict.{verdict};
ghost use Rattle.result_lines.specs.Ranks.{greater_among, is_greater, is_undecided, rank_of, ranks_of, undecided_among};

use fixed_span::{Span, Verdict, compare};
use history_model::NoMemory;
use std::alloc::Global;

/// The place of a span among all spans, the greatest first.
#[derive(Clone, Copy, Debug, PartialEq, Eq)]
pub enum Rank {
    /// 1 plus the number of spans that are greater.
    At(u32),
    /// Some other span overlaps, and the two aren't one equal point.
    Undecided,
}

pub(crate) fn is_greater(verdict: Verdict) -> bool
    ensures { result ≡ is_greater verdict }
{
    match verdict {
        Verdict::Greater => true,
        Verdict::Less | Verdict::Level | Verdict::Undecided => false,
    }
}

pub(crate) fn is_undecided(verdict: Verdict) -> bool
    ensures { result ≡ is_undecided verdict }
{
    match verdict {
        Verdict::Undecided => true,
        Verdict::Less | Verdict::Greater | Verdict::Level => false,
    }
}

fn undecided_among(others: &[Span], own: Span) -> bool
    ensures { result ≡ undecided_among others.now own }
{
    others
        .iter()
        .any(|other| is_undecided(compare(*other, own)))
}

fn greater_among(others: &[Span], own: Span) -> usize
    ensures value { result ≡ greater_among others.now own }
{
    others
        .iter()
        .filter(|other| is_greater(compare(**other, own)))
        .count()
}

/// The rank of the span at a place among all spans, of which there are fewer than 2^32. Takes no memory.
pub fn rank_of(spans: &[Span], i: u32) -> Rank
    requires inside { i < length spans.now }
    requires few { length spans.now < 2 ^ 32 }
    ensures { result ≡ rank_of spans.now i }
{
    let place = i as usize;
    let own = spans[place];
    let before = &spans[..place];
    let behind = &spans[place + 1..];
    if undecided_among(before, own) || undecided_among(behind, own) {
        Rank::Undecided
    } else {
        Rank::At((1 + greater_among(before, own) + greater_among(behind, own)) as u32)
    }
}

/// The ranks of all spans, of which there are fewer than 2^32, in their order.
///
/// # Errors
///
/// `NoMemory` where the ranks find no memory.
pub fn ranks(alloc: Global, spans: &[Span]) -> Result<Vec<Rank>, NoMemory>
    requires few { length spans.now < 2 ^ 32 }
    ensures { IfOk result (λ ranks. ranks.items ≡ ranks_of spans.now) }
{
    let mut ranks = Vec::new(alloc);
    for i in 0..spans.len() as u32 {
        ranks.push(rank_of(spans, i))?;
    }
    Ok(ranks)
}
