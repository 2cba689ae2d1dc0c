//! Reads checkpoints.
ghost use Rattle.std.specs.Prelude.{◌≡◌, ◌+◌, ◌-◌, ◌≤◌, ◌<◌, ◌^◌, Ok, length, IfOk, IfErr};
ghost use Rattle.texts.specs.Grammar.{pieces};
ghost use Rattle.checkpoint.specs.Checkpoints.{checkpoint_of, matches_at};
ghost use Rattle.checkpoint.specs.Errors.{Tells};
ghost use Rattle.checkpoint.specs.Exact.{AreRowsFor};

use crate::matches::{behind_head, next_match, read_end};
use crate::{ExpectedMatch, RotaError, checkpoints_are_exact};
use history_model::Game;
use rota_rows::RotaRows;
use std::alloc::Global;

// The matches from line `first` on, and the end.
fn read_matches(
    alloc: Global,
    bytes: &[u8],
    first: u32,
    expected: &[ExpectedMatch],
    game: &Game,
    offset: u32,
) -> Result<RotaRows, RotaError>
    requires few { length expected.now ≤ 256 }
    requires offset { offset ≤ 1000000 }
    requires room { first + length bytes.now < 2 ^ 32 }
    ensures rows { IfOk result (λ rows. matches_at game.now offset expected.now 0 first (pieces bytes.now) ≡ Ok rows) }
    ensures fault { IfErr result (Tells (matches_at game.now offset expected.now 0 first (pieces bytes.now))) }
{
    let mut buffer = String::new(alloc);
    let mut items = Vec::new(alloc);
    let mut rest = bytes;
    let mut at = first;
    let mut number: u32 = 0;
    for pair in expected {
        let (row, more) = next_match(&mut buffer, rest, at, number, pair, game, offset)?;
        items.push(row)?;
        rest = more;
        at += 2;
        number += 1;
    }
    read_end(rest, at)?;
    Ok(RotaRows::from_vec(items))
}

/// Where the expected matches of a rota stand by the bytes of a checkpoint, which is the report of the rota.
/// `head` is the report's front before its first match; each of its lines ends with an LF. `game` is the
/// raised game and `offset` what was added to each payoff, at most 1,000,000. The time is linear in the
/// number of bytes.
///
/// # Errors
///
/// The first fault, line by line: `BadLine` where a line isn't the one that the head has there, no line of
/// the match of that number, no score that its row is paid, no `end`, missing, or behind the end;
/// `WrongPair` where a row shows other names; `BadMark` where a mark is no row of what its entry plays, of
/// whatever size it is. And `NoMemory`.
pub fn read_rows(
    alloc: Global,
    bytes: &[u8],
    head: &[u8],
    expected: &[ExpectedMatch],
    game: &Game,
    offset: u32,
) -> Result<RotaRows, RotaError>
    requires length { length bytes.now < 2 ^ 32 - 1 }
    requires few { length expected.now ≤ 256 }
    requires offset { offset ≤ 1000000 }
    ensures rows { IfOk result (λ rows. checkpoint_of head.now expected.now game.now offset bytes.now ≡ Ok rows) }
    ensures fault { IfErr result (Tells (checkpoint_of head.now expected.now game.now offset bytes.now)) }
    ensures range { IfOk result (AreRowsFor expected.now) }
{
    checkpoints_are_exact();
    let (at, rest) = behind_head(bytes, head)?;
    read_matches(alloc, rest, at, expected, game, offset)
}
