//! What a match is paid, by its second line.
ghost use Rattle.std.specs.Prelude.{◌≡◌, ◌≤◌, ◌^◌, IfOk};
ghost use Rattle.std.specs.Str.{bytes_eq};
ghost use Rattle.history_model.specs.Tally.{total};
ghost use Rattle.checkpoint.specs.Texts.{score_line, score_of, shown_scores};

use history_model::Game;
use rota_rows::{RotaRow, ShownScores, push_scores};
use std::alloc::AllocError;

fn score_of(offset: u32, turns: u64, points: u128) -> i128
    requires offset { offset ≤ 1000000 }
    requires turns { turns ≤ 10 ^ 12 }
    requires points { points ≤ 10 ^ 18 }
    ensures { result ≡ score_of offset turns points }
{
    let raised = points * 1_000_000_000_000;
    let less = offset as u128 * turns as u128 * 1_000_000_000_000;
    raised as i128 - less as i128
}

fn shown_scores(game: &Game, offset: u32, number: u32, row: &RotaRow) -> ShownScores
    requires offset { offset ≤ 1000000 }
    requires turns { total row.now.tally ≤ 10 ^ 12 }
    ensures { result ≡ shown_scores game.now offset number row.now }
{
    let tally = row.tally;
    let turns = tally.cc + tally.cd + tally.dc + tally.dd;
    ShownScores {
        number,
        left: score_of(offset, turns, tally.left_points(game)),
        right: score_of(offset, turns, tally.right_points(game)),
    }
}

/// Whether a line is the one that shows what the match is paid. What `buffer` holds is lost.
///
/// # Errors
///
/// `AllocError` alone.
pub(crate) fn is_score_line(
    buffer: &mut String,
    line: &[u8],
    game: &Game,
    offset: u32,
    number: u32,
    row: &RotaRow,
) -> Result<bool, AllocError>
    requires offset { offset ≤ 1000000 }
    requires turns { total row.now.tally ≤ 10 ^ 12 }
    ensures { IfOk result (λ same. same ≡ bytes_eq line.now (score_line game.now offset number row.now)) }
{
    let scores = shown_scores(game, offset, number, row);
    buffer.clear();
    push_scores(buffer, &scores)?;
    Ok(line == buffer.as_bytes())
}
