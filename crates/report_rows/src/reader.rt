//! A small reader of reports. It follows the description of reports, line by line and field by field,
//! and owes nothing to the crates that print and read them.
ghost use Rattle.std.specs.Prelude.{◌<◌};

use crate::drill_lines::bad_in_drill;
use crate::table::Table;
use std::alloc::Global;
use std::test::Fail;

// The units of a point, and the most points and turns that a report shows of a match.
const UNITS: u128 = 1_000_000_000_000;

const MOST_POINTS: u128 = 1_000_000_000_000_000_000_000;

const MOST_TURNS: u128 = 1_000_000_000_000;

// Both ends of a score, in units.
pub(crate) type Ends = (i128, i128);

/// What a report tells of its lab: the version, and the payoffs of the file.
#[derive(Clone, Copy, Drop)]
pub(crate) struct Lab {
    pub version: u32,
    pub payoffs: [i128; 4],
}

// The fields of a match line from which the lines of entries follow.
#[derive(Clone, Copy, Drop)]
pub(crate) struct Played<'a> {
    pub left: &'a str,
    pub right: &'a str,
    pub left_score: Ends,
    pub right_score: Ends,
}

fn are_digits(text: &str) -> bool {
    text.bytes().all(|byte| byte.is_ascii_digit())
}

// A whole number in decimal, without leading zeros.
pub(crate) fn whole(text: &str, most: u128) -> Option<u128> {
    let is_plain = text == "0" || !text.starts_with('0');
    if !is_plain || !are_digits(text) {
        return None;
    }
    let number = text.parse::<u128>().ok()?;
    if number <= most { Some(number) } else { None }
}

/// Points with twelve decimals, in units.
pub(crate) fn units(text: &str, most_points: u128) -> Option<u128> {
    let (points, decimals) = text.split_once('.')?;
    if decimals.len() != 12 || !are_digits(decimals) {
        return None;
    }
    let points = whole(points, most_points)?.checked_mul(UNITS)?;
    let units = points.checked_add(decimals.parse::<u128>().ok()?)?;
    if units <= most_points.checked_mul(UNITS)? {
        Some(units)
    } else {
        None
    }
}

// A number of either sign, whose `-` stands before the text of its size; -0 is none.
fn with_sign(size: u128, is_below: bool) -> Option<i128> {
    let size = i128::try_from(size).ok()?;
    if is_below && size == 0 {
        None
    } else if is_below {
        size.checked_neg()
    } else {
        Some(size)
    }
}

// The text of the size of a number, and whether a `-` stands before it, as only version 2 has it.
fn sign_of(text: &str, version: u32) -> Option<(&str, bool)> {
    match text.strip_prefix('-') {
        Some(size) if version == 2 => Some((size, true)),
        Some(_) => None,
        None => Some((text, false)),
    }
}

// One end of a score.
fn end_of(text: &str, most_points: u128, version: u32) -> Option<i128> {
    let (size, is_below) = sign_of(text, version)?;
    with_sign(units(size, most_points)?, is_below)
}

// Both ends of a score.
pub(crate) fn score(text: &str, most_points: u128, version: u32) -> Option<Ends> {
    let (lo, hi) = text.split_once("..").unwrap_or((text, text));
    let ends = (
        end_of(lo, most_points, version)?,
        end_of(hi, most_points, version)?,
    );
    let is_span = lo.len() < text.len();
    // Two ends are shown exactly where they differ.
    if is_span == (ends.0 < ends.1) {
        Some(ends)
    } else {
        None
    }
}

pub(crate) fn winner(left: Ends, right: Ends) -> &'static str {
    if left.0 > right.1 {
        "left"
    } else if right.0 > left.1 {
        "right"
    } else if left.0 == left.1 && left == right {
        "level"
    } else {
        "undecided"
    }
}

pub(crate) fn is_name(text: &str) -> bool {
    let is_padded = text.starts_with(' ') || text.ends_with(' ');
    let is_short = 1 <= text.len() && text.len() <= 32;
    is_short && !is_padded && text.bytes().all(|byte| b' ' <= byte && byte <= b'~')
}

fn four(texts: [&str; 4], most: u128) -> Option<[u128; 4]> {
    let [first, second, third, fourth] = texts;
    Some([
        whole(first, most)?,
        whole(second, most)?,
        whole(third, most)?,
        whole(fourth, most)?,
    ])
}

fn payoff(text: &str, version: u32) -> Option<i128> {
    let (size, is_below) = sign_of(text, version)?;
    with_sign(whole(size, 1_000_000)?, is_below)
}

// The payoffs that a line of a game shows. The greatest less the least is at most 1,000,000.
fn payoffs(fields: &[&str], version: u32) -> Option<[i128; 4]> {
    let [head, r, s, t, p, key, word] = fields else {
        return None;
    };
    let (r, s) = (payoff(*r, version)?, payoff(*s, version)?);
    let (t, p) = (payoff(*t, version)?, payoff(*p, version)?);
    let is_dilemma = t > r && r > p && p > s && r.checked_add(r)? > t.checked_add(s)?;
    let wanted = if is_dilemma { "yes" } else { "no" };
    let (most, least) = (r.max(s).max(t).max(p), r.min(s).min(t).min(p));
    let is_near = most.checked_sub(least)? <= 1_000_000;
    if *head == "game" && *key == "dilemma" && *word == wanted && is_near {
        Some([r, s, t, p])
    } else {
        None
    }
}

// Whether a chance is at most one half, over a denominator from 1 to 1000.
fn is_rate(n: &str, e: &str) -> Option<bool> {
    let e = whole(e, 1000)?;
    let n = whole(n, 500)?;
    Some(e >= 1 && n <= e / 2)
}

fn is_noise(fields: &[&str]) -> Option<bool> {
    let [head, n, e] = fields else {
        return None;
    };
    Some(*head == "noise" && is_rate(*n, *e)?)
}

// The name whose noise a line shows.
fn own_of<'a>(fields: &[&'a str]) -> Option<&'a str> {
    let [head, name, n, e] = fields else {
        return None;
    };
    if *head == "own" && is_name(*name) && is_rate(*n, *e)? {
        Some(*name)
    } else {
        None
    }
}

// What these counts are paid, in units.
fn paid(payoffs: [i128; 4], counts: [u128; 4]) -> Option<i128> {
    let mut points: i128 = 0;
    for k in 0..4 {
        let count = i128::try_from(counts[k]).ok()?;
        points = points.checked_add(payoffs[k].checked_mul(count)?)?;
    }
    points.checked_mul(1_000_000_000_000)
}

// Whether the last fields of a sure match are right.
fn is_counted(lab: &Lab, turns: u128, scores: [Ends; 2], fields: &[&str]) -> Option<bool> {
    let [word, left_c, right_c, cc, cd, dc, dd] = fields else {
        return None;
    };
    let counts = four([*cc, *cd, *dc, *dd], MOST_TURNS)?;
    let [cc, cd, dc, dd] = counts;
    let left_count = cc.checked_add(cd)?;
    let right_count = cc.checked_add(dc)?;
    let total = left_count.checked_add(dc.checked_add(dd)?)?;
    let [r, s, t, p] = lab.payoffs;
    let left = paid(lab.payoffs, counts)?;
    let right = paid([r, t, s, p], counts)?;
    Some(
        *word == "sure"
            && total == turns
            && whole(*left_c, MOST_TURNS)? == left_count
            && whole(*right_c, MOST_TURNS)? == right_count
            && scores == [(left, left), (right, right)],
    )
}

/// The match that a line shows.
pub(crate) fn match_of<'a>(lab: &Lab, fields: &[&'a str]) -> Option<Played<'a>> {
    let [
        head,
        left,
        right,
        turns,
        left_score,
        right_score,
        word,
        rest @ ..,
    ] = fields
    else {
        return None;
    };
    let turns = whole(*turns, MOST_TURNS)?;
    let left_score = score(*left_score, MOST_POINTS, lab.version)?;
    let right_score = score(*right_score, MOST_POINTS, lab.version)?;
    let is_shown = *head == "match" && is_name(*left) && is_name(*right) && turns >= 1;
    let is_won = *word == winner(left_score, right_score);
    let is_whole = match rest {
        [only] => *only == "mixed",
        _ => is_counted(lab, turns, [left_score, right_score], rest)?,
    };
    if is_shown && is_won && is_whole {
        Some(Played {
            left: *left,
            right: *right,
            left_score,
            right_score,
        })
    } else {
        None
    }
}

/// The fields of a line.
pub(crate) fn fields_of(alloc: Global, line: &str) -> Result<Vec<&str>, Fail> {
    let mut fields: Vec<&str> = Vec::new(alloc);
    for field in line.split('|') {
        fields.push(field)?;
    }
    Ok(fields)
}

// The payoffs of line 2, where these are some.
fn payoffs_of(alloc: Global, line: &str, version: u32) -> Result<Option<[i128; 4]>, Fail> {
    let fields = fields_of(alloc, line)?;
    Ok(payoffs(&fields, version))
}

/// The names whose noises a report of version 2 shows, in their order, and how many of these were shown.
#[derive(Drop)]
pub(crate) struct Owners<'a> {
    version: u32,
    names: Vec<&'a str>,
    shown: usize,
}

impl<'a> Owners<'a> {
    /// Whether a name was shown, or comes next, and then is shown.
    pub(crate) fn show(&mut self, name: &str) -> bool {
        if self.version == 1
            || self
                .names
                .iter()
                .take(self.shown)
                .any(|other| *other == name)
        {
            return true;
        }
        match self.names.get(self.shown) {
            Some(next) if *next == name => {
                self.shown = self.shown.saturating_add(1);
                true
            }
            _ => false,
        }
    }

    /// Whether all names were shown.
    pub(crate) fn are_shown(&self) -> bool {
        self.version == 1 || self.shown == self.names.len()
    }
}

// The first bad line from a number on, in the report of a match; 0 where there is none.
fn bad_in_match(
    alloc: Global,
    lab: &Lab,
    mut owners: Owners,
    first: u32,
    text: &str,
) -> Result<u32, Fail>
    requires { first < 1000 }
{
    let Some((line, more)) = text.split_once('\n') else {
        return Ok(first);
    };
    let fields = fields_of(alloc, line)?;
    let Some(found) = match_of(lab, &fields) else {
        return Ok(first);
    };
    if !owners.show(found.left) || !owners.show(found.right) {
        return Ok(first);
    }
    match more.split_once('\n') {
        Some(("end", rest)) if owners.are_shown() => {
            Ok(if rest.is_empty() { 0 } else { first + 2 })
        }
        _ => Ok(first + 1),
    }
}

// The same in the report of a tournament.
fn bad_in_tournament(
    alloc: Global,
    lab: &Lab,
    mut owners: Owners,
    first: u32,
    text: &str,
) -> Result<u32, Fail>
    requires { first < 1000 }
{
    let mut table = Table::new(alloc);
    let mut rest = text;
    for number in first..first + 100 {
        let Some((line, more)) = rest.split_once('\n') else {
            return Ok(number);
        };
        if line == "end" && table.is_whole() && owners.are_shown() {
            return Ok(if more.is_empty() { 0 } else { number + 1 });
        }
        let fields = fields_of(alloc, line)?;
        if !table.takes(lab, &mut owners, &fields)? {
            return Ok(number);
        }
        rest = more;
    }
    Err(Fail::from("a long report"))
}

// The names whose noises lines show from line 4 on, and the text behind these lines.
fn owners_of(alloc: Global, version: u32, text: &str) -> Result<(Owners, &str), Fail> {
    let mut names: Vec<&str> = Vec::new(alloc);
    let mut rest = text;
    for _ in 0..100 {
        let Some((line, more)) = rest.split_once('\n') else {
            break;
        };
        let fields = fields_of(alloc, line)?;
        let Some(name) = own_of(&fields) else {
            break;
        };
        if version == 1 || names.iter().any(|other| *other == name) {
            break;
        }
        names.push(name)?;
        rest = more;
    }
    let owners = Owners {
        version,
        names,
        shown: 0,
    };
    Ok((owners, rest))
}

/// The first line of a text that makes it no report; 0 where it is one.
pub(crate) fn first_bad(alloc: Global, text: &str) -> Result<u32, Fail> {
    let Some((head, rest)) = text.split_once('\n') else {
        return Ok(1);
    };
    let (version, is_match) = match head {
        "axlab|1|drill" => return bad_in_drill(alloc, rest),
        "axlab|1|match" => (1, true),
        "axlab|1|tournament" => (1, false),
        "axlab|2|match" => (2, true),
        "axlab|2|tournament" => (2, false),
        _ => return Ok(1),
    };
    let Some((line, rest)) = rest.split_once('\n') else {
        return Ok(2);
    };
    let Some(payoffs) = payoffs_of(alloc, line, version)? else {
        return Ok(2);
    };
    let Some((line, rest)) = rest.split_once('\n') else {
        return Ok(3);
    };
    let fields = fields_of(alloc, line)?;
    if !is_noise(&fields).unwrap_or(false) {
        return Ok(3);
    }
    let (owners, rest) = owners_of(alloc, version, rest)?;
    let lab = Lab { version, payoffs };
    let first = u32::try_from(owners.names.len().min(100)).unwrap_or(100) + 4;
    if is_match {
        bad_in_match(alloc, &lab, owners, first, rest)
    } else {
        bad_in_tournament(alloc, &lab, owners, first, rest)
    }
}
