//! Reads lines.
ghost use Rattle.std.specs.Prelude.{◌≡◌, ◌≤◌, true, IfOk, IfSome};
ghost use Rattle.std.specs.Str.{bytes_eq};
ghost use Rattle.report_lines.specs.Fields.{is_amount, score_from};
ghost use Rattle.report_lines.specs.HeadForms.{has_two, is_version};
ghost use Rattle.report_lines.specs.Texts.{is_head, is_game, is_noise, is_own, is_turns, is_score, counts_are, is_match, is_total, is_count, is_rank, is_entry, is_line, is_number, are_points, is_first};
ghost use Rattle.report_lines.specs.Reading.{name_of, score_of, kind_of, head_of, amount_of, payoff_of, game_of, noise_of, own_of, tally_of, counts_of, scores_of, match_of, count_of, rank_of, entry_of, points_of, first_of, drill_line, fixed, guess, line_of};

use crate::writing::push_line;
use crate::{Kind, Line, ShownEntry, ShownFirst, ShownGame, ShownHead, ShownMatch, ShownOwn};
use fixed_span::Span;
use history_model::{Name, Noise, Tally};
use std::alloc::AllocError;
use texts::{cut, sign_of, signed_at, small, with_sign};

fn is(text: &[u8], word: &str) -> bool
    ensures { result ≡ bytes_eq text.now word.now }
{
    text == word.as_bytes()
}

fn name_of(text: &[u8]) -> Option<Name>
    ensures { result ≡ name_of text.now }
{
    Name::read(text)
}

// The score whose lower end is known, from what stands behind that.
fn score_from(lo: i128, rest: &[u8]) -> Option<Span>
    ensures { result ≡ score_from lo rest.now }
{
    match rest {
        [] => Some(Span::point(lo)),
        [_] => None,
        [_, _, more @ ..] => {
            let (hi, _) = signed_at(more, 12)?;
            if lo < hi { Some(Span { lo, hi }) } else { None }
        }
    }
}

#[tactic(auto, unfolding(crate::specs::Reading::score_of))]
fn score_of(text: &[u8]) -> Option<Span>
    ensures { result ≡ score_of text.now }
{
    let (lo, rest) = signed_at(text, 12)?;
    score_from(lo, rest)
}

#[tactic(auto, unfolding(crate::specs::Reading::kind_of))]
fn kind_of(text: &[u8]) -> Option<Kind>
    ensures { result ≡ kind_of text.now }
{
    if is(text, "match") {
        Some(Kind::Match)
    } else if is(text, "tournament") {
        Some(Kind::Tournament)
    } else if is(text, "drill") {
        Some(Kind::Drill)
    } else {
        None
    }
}

fn has_two(kind: Kind) -> bool
    ensures { result ≡ has_two kind }
{
    match kind {
        Kind::Match | Kind::Tournament => true,
        Kind::Drill => false,
    }
}

fn is_version(head: &ShownHead) -> bool
    ensures { result ≡ is_version head.now }
{
    head.version == 1 || (head.version == 2 && has_two(head.kind))
}

#[tactic(auto, unfolding(crate::specs::Reading::head_of))]
fn head_of(text: &[u8]) -> Option<ShownHead>
    ensures { result ≡ head_of text.now }
{
    let (version, kind) = cut(text, b'|');
    let version = count_of(version)?;
    let kind = kind_of(kind)?;
    let head = ShownHead { version, kind };
    if is_version(&head) { Some(head) } else { None }
}

fn is_amount(n: u64) -> bool
    ensures { result ≡ is_amount n }
{
    n <= 1_000_000
}

#[tactic(auto, unfolding(crate::specs::Reading::amount_of))]
fn amount_of(text: &[u8]) -> Option<u64>
    ensures value { result ≡ amount_of text.now }
    ensures range { IfSome result (λ n. n ≤ 1000000) }
{
    let n = small(text)?;
    if is_amount(n) { Some(n) } else { None }
}

#[tactic(auto, unfolding(crate::specs::Reading::payoff_of, crate::specs::Reading::amount_of))]
fn payoff_of(text: &[u8]) -> Option<i64>
    ensures { result ≡ payoff_of text.now }
{
    let (minus, amount) = sign_of(text);
    let amount = amount_of(amount)?;
    let pay = with_sign(minus, amount as u128)?;
    Some(pay as i64)
}

#[tactic(auto, unfolding(crate::specs::Reading::game_of, crate::specs::Reading::payoff_of))]
fn game_of(text: &[u8]) -> Option<ShownGame>
    ensures { result ≡ game_of text.now }
{
    let (r, rest) = cut(text, b'|');
    let (s, rest) = cut(rest, b'|');
    let (t, rest) = cut(rest, b'|');
    let (p, _) = cut(rest, b'|');
    let r = payoff_of(r)?;
    let s = payoff_of(s)?;
    let t = payoff_of(t)?;
    let p = payoff_of(p)?;
    Some(ShownGame { r, s, t, p })
}

#[tactic(auto, unfolding(crate::specs::Reading::noise_of))]
fn noise_of(text: &[u8]) -> Option<Noise>
    ensures { result ≡ noise_of text.now }
{
    let (n, rest) = cut(text, b'|');
    let (e, _) = cut(rest, b'|');
    let n = small(n)?;
    let e = small(e)?;
    if 1 <= e && e <= 1000 && n <= e / 2 {
        Some(Noise {
            n: n as u32,
            e: e as u32,
        })
    } else {
        None
    }
}

#[tactic(auto, unfolding(crate::specs::Reading::own_of))]
fn own_of(text: &[u8]) -> Option<ShownOwn>
    ensures { result ≡ own_of text.now }
{
    let (name, noise) = cut(text, b'|');
    let name = name_of(name)?;
    let noise = noise_of(noise)?;
    Some(ShownOwn { name, noise })
}

#[tactic(auto, unfolding(crate::specs::Reading::tally_of))]
fn tally_of(text: &[u8]) -> Option<Tally>
    ensures { result ≡ tally_of text.now }
{
    let (cc, rest) = cut(text, b'|');
    let (cd, rest) = cut(rest, b'|');
    let (dc, rest) = cut(rest, b'|');
    let (dd, _) = cut(rest, b'|');
    let cc = small(cc)?;
    let cd = small(cd)?;
    let dc = small(dc)?;
    let dd = small(dd)?;
    Some(Tally { cc, cd, dc, dd })
}

// The counts, in what stands behind the winner.
#[tactic(auto, unfolding(crate::specs::Reading::counts_of))]
fn counts_of(text: &[u8]) -> Option<Option<Tally>>
    ensures { result ≡ counts_of text.now }
{
    let (word, rest) = cut(text, b'|');
    if !is(word, "sure") {
        return Some(None);
    }
    let (_, rest) = cut(rest, b'|');
    let (_, rest) = cut(rest, b'|');
    let tally = tally_of(rest)?;
    Some(Some(tally))
}

// Both scores, and the counts.
#[tactic(auto, unfolding(crate::specs::Reading::scores_of))]
fn scores_of(text: &[u8]) -> Option<(Span, Span, Option<Tally>)>
    ensures { result ≡ scores_of text.now }
{
    let (left, rest) = cut(text, b'|');
    let (right, rest) = cut(rest, b'|');
    let (_, rest) = cut(rest, b'|');
    let left = score_of(left)?;
    let right = score_of(right)?;
    let counts = counts_of(rest)?;
    Some((left, right, counts))
}

#[tactic(auto, unfolding(crate::specs::Reading::match_of))]
fn match_of(text: &[u8]) -> Option<ShownMatch>
    ensures { result ≡ match_of text.now }
{
    let (left, rest) = cut(text, b'|');
    let (right, rest) = cut(rest, b'|');
    let (turns, rest) = cut(rest, b'|');
    let left = name_of(left)?;
    let right = name_of(right)?;
    let turns = small(turns)?;
    let (left_score, right_score, tally) = scores_of(rest)?;
    Some(ShownMatch {
        left,
        right,
        turns,
        left_score,
        right_score,
        tally,
    })
}

#[tactic(auto, unfolding(crate::specs::Reading::count_of))]
fn count_of(text: &[u8]) -> Option<u32>
    ensures { result ≡ count_of text.now }
{
    let n = small(text)?;
    if n < 1 << 32 { Some(n as u32) } else { None }
}

// The rank that a field shows, which may be undecided.
#[tactic(auto, unfolding(crate::specs::Reading::rank_of))]
fn rank_of(text: &[u8]) -> Option<Option<u32>>
    ensures { result ≡ rank_of text.now }
{
    if is(text, "undecided") {
        return Some(None);
    }
    let rank = count_of(text)?;
    Some(Some(rank))
}

#[tactic(auto, unfolding(crate::specs::Reading::entry_of))]
fn entry_of(text: &[u8]) -> Option<ShownEntry>
    ensures { result ≡ entry_of text.now }
{
    let (name, rest) = cut(text, b'|');
    let (total, rest) = cut(rest, b'|');
    let (rank, rest) = cut(rest, b'|');
    let (wins, undecided) = cut(rest, b'|');
    let name = name_of(name)?;
    let total = score_of(total)?;
    let rank = rank_of(rank)?;
    let wins = count_of(wins)?;
    let undecided = count_of(undecided)?;
    Some(ShownEntry {
        name,
        total,
        rank,
        wins,
        undecided,
    })
}

// The points that a field shows. A span that is none has another text.
#[tactic(auto, unfolding(crate::specs::Reading::points_of))]
fn points_of(text: &[u8]) -> Option<i128>
    ensures { result ≡ points_of text.now }
{
    let score = score_of(text)?;
    Some(score.ends().0)
}

#[tactic(auto, unfolding(crate::specs::Reading::first_of))]
fn first_of(text: &[u8]) -> Option<ShownFirst>
    ensures { result ≡ first_of text.now }
{
    let (name, total) = cut(text, b'|');
    let name = name_of(name)?;
    let total = points_of(total)?;
    Some(ShownFirst { name, total })
}

// The line of a drill by its first field, and what stands behind it.
#[tactic(auto, unfolding(crate::specs::Reading::drill_line))]
fn drill_line(word: &[u8], rest: &[u8]) -> Option<Line>
    ensures { result ≡ drill_line word.now rest.now }
{
    let (next, _) = cut(rest, b'|');
    if is(word, "drill") {
        let number = small(next)?;
        return Some(Line::Drill(number));
    }
    if is(word, "first") {
        let first = first_of(rest)?;
        return Some(Line::First(first));
    }
    if is(word, "total") {
        let sum = points_of(next)?;
        return Some(Line::Total(sum));
    }
    None
}

// A line by its first field; what its other fields don't need isn't looked at.
#[tactic(auto, unfolding(crate::specs::Reading::fixed))]
fn fixed(word: &[u8], rest: &[u8]) -> Option<Line>
    ensures { result ≡ fixed word.now rest.now }
{
    if is(word, "match") {
        let found = match_of(rest)?;
        return Some(Line::Match(found));
    }
    if is(word, "entry") {
        let entry = entry_of(rest)?;
        return Some(Line::Entry(entry));
    }
    if is(word, "axlab") {
        let head = head_of(rest)?;
        return Some(Line::Head(head));
    }
    if is(word, "game") {
        let game = game_of(rest)?;
        return Some(Line::Game(game));
    }
    if is(word, "noise") {
        let noise = noise_of(rest)?;
        return Some(Line::Noise(noise));
    }
    if is(word, "own") {
        let own = own_of(rest)?;
        return Some(Line::Own(own));
    }
    if is(word, "end") {
        return Some(Line::End);
    }
    drill_line(word, rest)
}

// A line by its first field.
#[tactic(auto, unfolding(crate::specs::Reading::guess))]
fn guess(text: &[u8]) -> Option<Line>
    ensures { result ≡ guess text.now }
{
    let (word, rest) = cut(text, b'|');
    fixed(word, rest)
}

fn is_head(head: &ShownHead) -> bool
    ensures { result ≡ is_head head.now }
{
    is_count(head.version) && is_version(head)
}

fn is_game(game: &ShownGame) -> bool
    ensures { result ≡ is_game game.now }
{
    is_amount(game.r.unsigned_abs())
        && (is_amount(game.s.unsigned_abs())
            && (is_amount(game.t.unsigned_abs()) && is_amount(game.p.unsigned_abs())))
}

fn is_noise(noise: &Noise) -> bool
    ensures { result ≡ is_noise noise.now }
{
    1 <= noise.e && noise.e <= 1000 && noise.n <= noise.e / 2
}

fn is_own(own: &ShownOwn) -> bool
    ensures { result ≡ is_own own.now }
{
    // The name is a name by its type.
    let _name = own.name.len();
    is_noise(&own.noise)
}

fn is_turns(turns: u64) -> bool
    ensures { result ≡ is_turns turns }
{
    1 <= turns && turns <= 1_000_000_000_000
}

fn is_score(score: Span) -> bool
    ensures { result ≡ is_score score }
{
    let (lo, hi) = score.ends();
    -1_000_000_000_000_000_000_000_000_000_000_000 <= lo
        && (lo <= hi && hi <= 1_000_000_000_000_000_000_000_000_000_000_000)
}

fn counts_are(turns: u64, tally: &Option<Tally>) -> bool
    ensures { result ≡ counts_are turns tally.now }
{
    match tally {
        None => true,
        Some(tally) => {
            let first = tally.cc as u128 + tally.cd as u128;
            let last = tally.dc as u128 + tally.dd as u128;
            first + last == turns as u128
        }
    }
}

fn is_match(found: &ShownMatch) -> bool
    ensures { result ≡ is_match found.now }
{
    // The names are names by their type.
    let _left = found.left.len();
    let _right = found.right.len();
    is_turns(found.turns)
        && is_score(found.left_score)
        && (is_score(found.right_score) && counts_are(found.turns, &found.tally))
}

fn is_total(total: Span) -> bool
    ensures { result ≡ is_total total }
{
    let (lo, hi) = total.ends();
    -10_000_000_000_000_000_000_000_000_000_000_000_000 <= lo
        && (lo <= hi && hi <= 10_000_000_000_000_000_000_000_000_000_000_000_000)
}

// Every count is in range by its type.
fn is_count(_count: u32) -> bool
    ensures { result ≡ is_count _count }
{
    true
}

fn is_rank(rank: Option<u32>) -> bool
    ensures { result ≡ is_rank rank }
{
    match rank {
        None => true,
        Some(rank) => is_count(rank),
    }
}

fn is_entry(entry: &ShownEntry) -> bool
    ensures { result ≡ is_entry entry.now }
{
    // The name is a name by its type.
    let _name = entry.name.len();
    is_total(entry.total)
        && (is_rank(entry.rank) && (is_count(entry.wins) && is_count(entry.undecided)))
}

// Every number is in range by its type.
fn is_number(_number: u64) -> bool
    ensures { result ≡ is_number _number }
{
    true
}

fn are_points(units: i128) -> bool
    ensures { result ≡ are_points units }
{
    0 <= units && units <= 10_000_000_000_000_000_000_000_000_000_000_000_000
}

fn is_first(first: &ShownFirst) -> bool
    ensures { result ≡ is_first first.now }
{
    // The name is a name by its type.
    let _name = first.name.len();
    are_points(first.total)
}

// Whether a line may stand in a report of some version. The rest is the report's to test: in version 1 no
// payoff, score or total is below 0, and in version 2 no two payoffs are too far apart.
fn is_line(line: &Line) -> bool
    ensures { result ≡ is_line line.now }
{
    match line {
        Line::Head(head) => is_head(head),
        Line::Game(game) => is_game(game),
        Line::Noise(noise) => is_noise(noise),
        Line::Own(own) => is_own(own),
        Line::Match(found) => is_match(found),
        Line::Entry(entry) => is_entry(entry),
        Line::Drill(number) => is_number(*number),
        Line::First(first) => is_first(first),
        Line::Total(sum) => are_points(*sum),
        Line::End => true,
    }
}

/// The line in range whose text this is, if there is one. The text has no LF. What `buffer` holds is
/// lost: the line is printed there and compared.
///
/// # Errors
///
/// `AllocError` alone.
#[tactic(auto, unfolding(crate::specs::Reading::line_of))]
pub fn line_of(buffer: &mut String, text: &[u8]) -> Result<Option<Line>, AllocError>
    ensures value { IfOk result (λ found. found ≡ line_of text.now) }
    ensures range { IfOk result (λ found. IfSome found (λ line. is_line line ≡ true)) }
{
    let found = match guess(text) {
        None => return Ok(None),
        Some(found) => found,
    };
    if !is_line(&found) {
        return Ok(None);
    }
    buffer.clear();
    push_line(buffer, &found)?;
    if buffer.as_bytes() == text {
        Ok(Some(found))
    } else {
        Ok(None)
    }
}
