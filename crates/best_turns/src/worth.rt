//! What the moves at a row are worth, by the numbers of one turn less.
ghost use Rattle.std.specs.Prelude.{◌≡◌, ◌+◌, ◌-◌, ◌*◌, ◌/◌, ◌^◌, ◌≤◌, ◌<◌, slice_index};
ghost use Rattle.history_model.specs.Game.{IsGame};
ghost use Rattle.fixed_span.specs.Span.{score_units};
ghost use Rattle.strategy_trees.specs.Contest.{contest, rows, one_play, worth, Contest};
ghost use Rattle.best_turns.specs.Meeting.{contest_of, AreFew, IsPrepared};
ghost use Rattle.best_turns.specs.Rounded.{best_worth, ceiling, choice_at};

use crate::meeting::Prepared;
use history_model::Move;

/// The numbers of a row with one turn more, and the move that attains the lower one.
#[derive(Clone, Copy)]
pub struct Cell {
    pub upper: u128,
    pub lower: u128,
    pub by: Move,
}

// What a move that is seen is worth, where the opponent's is drawn by the weights.
#[inline(always)]
fn drawn(c: u64, d: u64, if_c: u128, if_d: u128) -> u128
    requires few { c + d ≤ 1000000 }
    requires if_c { if_c ≤ 2 * 10 ^ 22 }
    requires if_d { if_d ≤ 2 * 10 ^ 22 }
    ensures value { result ≡ c * if_c + d * if_d }
    ensures few { result ≤ 4 * 10 ^ 28 }
{
    c as u128 * if_c + d as u128 * if_d
}

// What a move that is intended is worth, where it is kept and flipped by the weights.
#[inline(always)]
fn intended(kept: u64, flipped: u64, if_kept: u128, if_flipped: u128) -> u128
    requires kept { kept ≤ 1000 }
    requires flipped { flipped ≤ 1000 }
    requires if_kept { if_kept ≤ 4 * 10 ^ 28 }
    requires if_flipped { if_flipped ≤ 4 * 10 ^ 28 }
    ensures value { result ≡ kept * if_kept + flipped * if_flipped }
    ensures few { result ≤ 8 * 10 ^ 31 }
{
    kept as u128 * if_kept + flipped as u128 * if_flipped
}

// What C and D are worth at a row, times the denominator of one play.
#[inline(always)]
fn worths(prepared: &Prepared, layer: &[u128], row: usize) -> (u128, u128)
    requires prepared { IsPrepared prepared.now }
    requires layer { AreFew (contest_of prepared.now) layer.now }
    requires row { row < rows (contest_of prepared.now) }
    ensures c { result.0 ≡ worth (contest_of prepared.now) score_units (slice_index layer.now) row Move.C }
    ensures d { result.1 ≡ worth (contest_of prepared.now) score_units (slice_index layer.now) row Move.D }
    ensures c_few { result.0 ≤ 8 * 10 ^ 31 }
    ensures d_few { result.1 ≤ 8 * 10 ^ 31 }
{
    let terms = prepared.terms;
    let at = prepared.stances[row];
    let if_c = drawn(
        at.c,
        at.d,
        terms.r + layer[at.cc as usize],
        terms.s + layer[at.cd as usize],
    );
    let if_d = drawn(
        at.c,
        at.d,
        terms.t + layer[at.dc as usize],
        terms.p + layer[at.dd as usize],
    );
    (
        intended(terms.kept, terms.flipped, if_c, if_d),
        intended(terms.kept, terms.flipped, if_d, if_c),
    )
}

// x / q, rounded up.
#[inline(always)]
fn rounded_up(x: u128, q: u64) -> u128
    requires small { x ≤ 8 * 10 ^ 31 }
    requires some { 1 ≤ q }
    ensures { result ≡ ceiling x q }
{
    (x + (q - 1) as u128) / q as u128
}

/// The numbers of a row with one turn more than the layers have.
pub fn cell_of(prepared: &Prepared, uppers: &[u128], lowers: &[u128], row: usize) -> Cell
    requires prepared { IsPrepared prepared.now }
    requires uppers { AreFew (contest_of prepared.now) uppers.now }
    requires lowers { AreFew (contest_of prepared.now) lowers.now }
    requires row { row < rows (contest_of prepared.now) }
    ensures upper { result.upper ≡ ceiling (best_worth (contest_of prepared.now) (slice_index uppers.now) row) (one_play (contest_of prepared.now)) }
    ensures lower { result.lower ≡ best_worth (contest_of prepared.now) (slice_index lowers.now) row / one_play (contest_of prepared.now) }
    ensures by { result.by ≡ choice_at (contest_of prepared.now) (slice_index lowers.now) row }
{
    let q = prepared.terms.q;
    let (upper_c, upper_d) = worths(prepared, uppers, row);
    let (lower_c, lower_d) = worths(prepared, lowers, row);
    Cell {
        upper: rounded_up(upper_c.max(upper_d), q),
        lower: lower_c.max(lower_d) / q as u128,
        by: if lower_d <= lower_c { Move::C } else { Move::D },
    }
}
