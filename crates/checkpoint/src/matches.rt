//! Lines, and the two of each match.
ghost use Rattle.std.specs.Prelude.{◌≡◌, ◌+◌, ◌-◌, ◌≤◌, ◌<◌, ◌^◌, [], Ok, Err, length, IfOk, IfErr, OnOk};
ghost use Rattle.texts.specs.Grammar.{pieces};
ghost use Rattle.checkpoint.specs.Checkpoints.{behind_head, end_at, line_at, next_match};
ghost use Rattle.checkpoint.specs.Errors.{Tells};

use crate::rows::{is, row_at};
use crate::scores::is_score_line;
use crate::{ExpectedMatch, Fault, RotaError};
use history_model::Game;
use rota_rows::RotaRow;
use texts::first_line;

// Line `at` in front, and what stands behind it.
fn line_at(bytes: &[u8], at: u32) -> Result<(&[u8], &[u8]), Fault>
    ensures line { IfOk result (λ x. line_at at (pieces bytes.now) ≡ Ok (x.0.now, pieces x.1.now)) }
    ensures len { IfOk result (λ x. length x.0.now + 1 + length x.1.now ≡ length bytes.now) }
    ensures fault { IfErr result (λ fault. line_at at (pieces bytes.now) ≡ Err fault) }
{
    match first_line(bytes) {
        Some((line, rest)) => Ok((line, rest)),
        None => Err(Fault::BadLine(at)),
    }
}

/// What stands behind the lines of the head, and the number of the next line.
pub(crate) fn behind_head<'a>(bytes: &'a [u8], head: &[u8]) -> Result<(u32, &'a [u8]), Fault>
    requires { length bytes.now < 2 ^ 32 - 1 }
    ensures rest { IfOk result (λ x. behind_head (pieces head.now) 1 (pieces bytes.now) ≡ Ok (x.0, pieces x.1.now)) }
    ensures room { IfOk result (λ x. x.0 + length x.1.now ≤ length bytes.now + 1) }
    ensures fault { IfErr result (λ fault. behind_head (pieces head.now) 1 (pieces bytes.now) ≡ Err fault) }
{
    let mut rest = bytes;
    let mut owed = head;
    let mut at: u32 = 1;
    while let Some((own, more)) = first_line(owed) {
        let (line, behind) = line_at(rest, at)?;
        if line != own {
            return Err(Fault::BadLine(at));
        }
        rest = behind;
        owed = more;
        at += 1;
    }
    Ok((at, rest))
}

/// Where match `number` stands by line `at` and the one behind it, and what stands behind both.
pub(crate) fn next_match<'a>(
    buffer: &mut String,
    bytes: &'a [u8],
    at: u32,
    number: u32,
    pair: &ExpectedMatch,
    game: &Game,
    offset: u32,
) -> Result<(RotaRow, &'a [u8]), RotaError>
    requires offset { offset ≤ 1000000 }
    requires room { at + length bytes.now < 2 ^ 32 }
    ensures row { IfOk result (λ x. next_match game.now offset pair.now number at (pieces bytes.now) ≡ Ok (x.0, pieces x.1.now)) }
    ensures shorter { IfOk result (λ x. length x.1.now + 2 ≤ length bytes.now) }
    ensures fault { IfErr result (Tells (next_match game.now offset pair.now number at (pieces bytes.now))) }
{
    let (line, rest) = line_at(bytes, at)?;
    let row = row_at(pair, number, at, line)?;
    let (line, rest) = line_at(rest, at + 1)?;
    if !is_score_line(buffer, line, game, offset, number, &row)? {
        return Err(RotaError::BadLine(at + 1));
    }
    Ok((row, rest))
}

/// Tests that line `at` is `end`, and that nothing stands behind it.
pub(crate) fn read_end(bytes: &[u8], at: u32) -> Result<(), Fault>
    requires { at + length bytes.now < 2 ^ 32 }
    ensures end { OnOk result (end_at at (pieces bytes.now) ≡ Ok []) }
    ensures fault { IfErr result (λ fault. end_at at (pieces bytes.now) ≡ Err fault) }
{
    let (line, rest) = line_at(bytes, at)?;
    if !is(line, "end") {
        return Err(Fault::BadLine(at));
    }
    if !rest.is_empty() {
        return Err(Fault::BadLine(at + 1));
    }
    Ok(())
}
