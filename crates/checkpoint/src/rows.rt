//! Where a match stands, by its first line.
ghost use Rattle.std.specs.Prelude.{◌≡◌, IfOk};
ghost use Rattle.std.specs.Str.{bytes_eq};
ghost use Rattle.rota_rows.specs.Lines.{row_form_with};
ghost use Rattle.checkpoint.specs.Checkpoints.{has_marks, has_names, placed, row_at, row_by, row_in_with};
ghost use Rattle.checkpoint.specs.Exact.{IsRowFor};
ghost use Rattle.checkpoint.specs.Marks.{capped_mark};

use crate::marks::capped_number;
use crate::{ExpectedMatch, Fault};
use rota_rows::{RotaRow, ShownRow, count_of, name_of, tally_of};
use texts::cut;

/// Whether a text is a word.
pub(crate) fn is(text: &[u8], word: &str) -> bool
    ensures { result ≡ bytes_eq text.now word.now }
{
    text == word.as_bytes()
}

// The fields of the line. Each is read exactly, so nothing is left to compare.
fn fields_of(text: &[u8]) -> Option<ShownRow>
    ensures { result ≡ (row_form_with capped_mark).read text.now }
{
    let (number, rest) = cut(text, b'|');
    let (left, rest) = cut(rest, b'|');
    let (right, rest) = cut(rest, b'|');
    let (left_mark, rest) = cut(rest, b'|');
    let (right_mark, tally) = cut(rest, b'|');
    let number = count_of(number)?;
    let left = name_of(left)?;
    let right = name_of(right)?;
    let left_mark = capped_number(left_mark)?;
    let right_mark = capped_number(right_mark)?;
    let tally = tally_of(tally)?;
    Some(ShownRow {
        number,
        left,
        right,
        left_mark,
        right_mark,
        tally,
    })
}

// What the line shows, with 2^32 - 1 for each larger mark.
fn row_in(line: &[u8]) -> Option<ShownRow>
    ensures { result ≡ row_in_with capped_mark line.now }
{
    let (word, rest) = cut(line, b'|');
    if !is(word, "row") {
        return None;
    }
    fields_of(rest)
}

fn has_names(pair: &ExpectedMatch, shown: &ShownRow) -> bool
    ensures { result ≡ has_names pair.now shown.now }
{
    shown.left.bytes() == pair.left_name.bytes() && shown.right.bytes() == pair.right_name.bytes()
}

fn has_marks(pair: &ExpectedMatch, shown: &ShownRow) -> bool
    ensures { result ≡ has_marks pair.now shown.now }
{
    shown.left_mark < pair.left_rows && shown.right_mark < pair.right_rows
}

fn placed(pair: &ExpectedMatch, shown: &ShownRow) -> RotaRow
    ensures { result ≡ placed pair.now shown.now }
{
    RotaRow {
        left: pair.left,
        right: pair.right,
        left_mark: shown.left_mark,
        right_mark: shown.right_mark,
        tally: shown.tally,
    }
}

// Where match `number` stands, by what line `at` shows.
fn row_by(
    pair: &ExpectedMatch,
    number: u32,
    at: u32,
    shown: Option<ShownRow>,
) -> Result<RotaRow, Fault>
    ensures { result ≡ row_by pair.now number at shown }
{
    let shown = match shown {
        None => return Err(Fault::BadLine(at)),
        Some(shown) => shown,
    };
    if shown.number != number {
        return Err(Fault::BadLine(at));
    }
    if !has_names(pair, &shown) {
        return Err(Fault::WrongPair(at));
    }
    if !has_marks(pair, &shown) {
        return Err(Fault::BadMark(at));
    }
    Ok(placed(pair, &shown))
}

/// Where match `number` stands, by line `at`.
pub(crate) fn row_at(
    pair: &ExpectedMatch,
    number: u32,
    at: u32,
    line: &[u8],
) -> Result<RotaRow, Fault>
    ensures row { result ≡ row_at pair.now number at line.now }
    ensures range { IfOk result (IsRowFor pair.now) }
{
    // Their ranges are known where they are read.
    let _left = pair.left_rows;
    let _right = pair.right_rows;
    row_by(pair, number, at, row_in(line))
}
