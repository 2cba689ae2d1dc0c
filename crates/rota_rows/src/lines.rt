//! The two lines that show a match of a rota.
ghost use Rattle.std.specs.Prelude.{◌≡◌, ◌++◌, codes, true, OnOk, string_bytes};
ghost use Rattle.rota_rows.specs.Fields.{are_plays, count_of, is_count, is_mark, is_score, mark_of, name_of, plays_of, score_of};
ghost use Rattle.rota_rows.specs.Lines.{are_few, are_scores, is_row, row_form, row_of, scores_form, both_scores_of, tally_form};

use history_model::{Name, Tally};
use std::alloc::AllocError;
use texts::{SignedScore, cut, signed_at, small};

/// A match of a rota as its first line shows it, with the names of its players. The ranges are those of
/// lines that are printed and read, and not the type's.
#[derive(Clone, Copy)]
pub struct ShownRow {
    /// The number of the match, from 0.
    pub number: u32,
    pub left: Name,
    pub right: Name,
    /// Below 512, as the other mark.
    pub left_mark: u32,
    pub right_mark: u32,
    /// Its counts sum to at most 10^12.
    pub tally: Tally,
}

/// What the two players of a match of a rota scored so far, as its second line shows it. The ranges are
/// those of lines that are printed and read, and not the type's.
#[derive(Clone, Copy, Debug, PartialEq, Eq)]
pub struct ShownScores {
    /// The number of the match, from 0.
    pub number: u32,
    /// From -10^37 to 10^37 units of 10^-12, as the right score.
    pub left: i128,
    pub right: i128,
}

/// The name that a field is; `None` where it is none.
pub fn name_of(text: &[u8]) -> Option<Name>
    ensures { result ≡ name_of text.now }
{
    Name::read(text)
}

/// The number below 2^32 that a field shows; `None` where it shows none.
#[tactic(auto, unfolding(crate::specs::Fields::count_of))]
pub fn count_of(text: &[u8]) -> Option<u32>
    ensures { result ≡ count_of text.now }
{
    let n = small(text)?;
    if n < 1 << 32 { Some(n as u32) } else { None }
}

/// Whether a number is a count: every one is, by its type.
pub fn is_count(_count: u32) -> bool
    ensures { result ≡ is_count _count }
{
    true
}

fn is_mark(mark: u32) -> bool
    ensures { result ≡ is_mark mark }
{
    mark < 512
}

#[tactic(auto, unfolding(crate::specs::Fields::mark_of))]
fn mark_of(text: &[u8]) -> Option<u32>
    ensures { result ≡ mark_of text.now }
{
    let n = small(text)?;
    if n < 512 { Some(n as u32) } else { None }
}

fn are_plays(plays: u64) -> bool
    ensures { result ≡ are_plays plays }
{
    plays <= 1_000_000_000_000
}

#[tactic(auto, unfolding(crate::specs::Fields::plays_of))]
fn plays_of(text: &[u8]) -> Option<u64>
    ensures { result ≡ plays_of text.now }
{
    let n = small(text)?;
    if are_plays(n) { Some(n) } else { None }
}

fn is_score(units: i128) -> bool
    ensures { result ≡ is_score units }
{
    units.unsigned_abs() <= 10_000_000_000_000_000_000_000_000_000_000_000_000
}

#[tactic(auto, unfolding(crate::specs::Fields::score_of))]
fn score_of(text: &[u8]) -> Option<i128>
    ensures { result ≡ score_of text.now }
{
    let (units, rest) = signed_at(text, 12)?;
    if rest.is_empty() { Some(units) } else { None }
}

fn are_few(tally: &Tally) -> bool
    ensures { result ≡ are_few tally.now }
{
    let first = tally.cc as u128 + tally.cd as u128;
    let last = tally.dc as u128 + tally.dd as u128;
    first + last <= 1_000_000_000_000
}

fn is_tally(tally: &Tally) -> bool
    ensures { result ≡ tally_form.is_in tally.now }
{
    let are_all = are_plays(tally.cc)
        && (are_plays(tally.cd) && (are_plays(tally.dc) && are_plays(tally.dd)));
    are_all && are_few(tally)
}

/// The counts of at most 10^12 plays together that a text shows; `None` where it shows none.
pub fn tally_of(text: &[u8]) -> Option<Tally>
    ensures { result ≡ tally_form.read text.now }
{
    let (cc, rest) = cut(text, b'|');
    let (cd, rest) = cut(rest, b'|');
    let (dc, dd) = cut(rest, b'|');
    let cc = plays_of(cc)?;
    let cd = plays_of(cd)?;
    let dc = plays_of(dc)?;
    let dd = plays_of(dd)?;
    let tally = Tally { cc, cd, dc, dd };
    if are_few(&tally) { Some(tally) } else { None }
}

/// Whether where a match stands is in range.
pub fn is_row(row: &ShownRow) -> bool
    ensures { result ≡ is_row row.now }
{
    // The names are names by their type.
    let _names = (row.left.len(), row.right.len());
    let are_marks = is_mark(row.left_mark) && (is_mark(row.right_mark) && is_tally(&row.tally));
    is_count(row.number) && are_marks
}

/// Where the match stands that a text shows, which stands behind `row|`. What is in range is read from its
/// text; another text may be read too, so the caller compares.
#[tactic(auto, unfolding(crate::specs::Lines::row_of))]
pub fn row_of(text: &[u8]) -> Option<ShownRow>
    ensures { result ≡ row_of text.now }
{
    let (number, rest) = cut(text, b'|');
    let (left, rest) = cut(rest, b'|');
    let (right, rest) = cut(rest, b'|');
    let (left_mark, rest) = cut(rest, b'|');
    let (right_mark, tally) = cut(rest, b'|');
    let number = count_of(number)?;
    let left = name_of(left)?;
    let right = name_of(right)?;
    let left_mark = mark_of(left_mark)?;
    let right_mark = mark_of(right_mark)?;
    let tally = tally_of(tally)?;
    Some(ShownRow {
        number,
        left,
        right,
        left_mark,
        right_mark,
        tally,
    })
}

/// Whether two scores are in range.
pub fn are_scores(scores: &ShownScores) -> bool
    ensures { result ≡ are_scores scores.now }
{
    is_count(scores.number) && (is_score(scores.left) && is_score(scores.right))
}

/// The scores that a text shows, which stands behind `score|`. What is in range is read from its text;
/// another text may be read too, so the caller compares.
#[tactic(auto, unfolding(crate::specs::Lines::both_scores_of))]
pub fn both_scores_of(text: &[u8]) -> Option<ShownScores>
    ensures { result ≡ both_scores_of text.now }
{
    let (number, rest) = cut(text, b'|');
    let (left, right) = cut(rest, b'|');
    let number = count_of(number)?;
    let left = score_of(left)?;
    let right = score_of(right)?;
    Some(ShownScores {
        number,
        left,
        right,
    })
}

fn push_tally(text: &mut String, tally: &Tally) -> Result<(), AllocError>
    ensures { OnOk result (string_bytes text.new ≡ string_bytes text.old ++ tally_form.text tally.now) }
{
    let (cc, cd, dc, dd) = (tally.cc, tally.cd, tally.dc, tally.dd);
    write!(text, "{cc}|{cd}|{dc}|{dd}")
}

/// Adds the line of where a match stands, without its LF.
///
/// # Errors
///
/// `AllocError` alone.
pub fn push_row(text: &mut String, row: &ShownRow) -> Result<(), AllocError>
    ensures { OnOk result (string_bytes text.new ≡ string_bytes text.old ++ (codes "row|" ++ row_form.text row.now)) }
{
    let number = row.number;
    let left = &row.left;
    let right = &row.right;
    let (left_mark, right_mark) = (row.left_mark, row.right_mark);
    write!(
        text,
        "row|{number}|{left}|{right}|{left_mark}|{right_mark}|"
    )?;
    push_tally(text, &row.tally)
}

/// Adds the line of two scores, without its LF.
///
/// # Errors
///
/// `AllocError` alone.
pub fn push_scores(text: &mut String, scores: &ShownScores) -> Result<(), AllocError>
    ensures { OnOk result (string_bytes text.new ≡ string_bytes text.old ++ (codes "score|" ++ scores_form.text scores.now)) }
{
    let number = scores.number;
    let left = SignedScore { units: scores.left };
    let right = SignedScore {
        units: scores.right,
    };
    write!(text, "score|{number}|{left}|{right}")
}
