//! Writes lines.
ghost use Rattle.std.specs.Prelude.{◌≡◌, ◌≤◌, ◌^◌, ◌++◌, true, codes, pos, ◌+ℤ◌, ◌*ℤ◌, int_lt, unsigned_abs, Some, OnOk, string_bytes};
ghost use Rattle.history_model.specs.Tally.{total};
ghost use Rattle.fixed_span.specs.Verdict.{verdict};
ghost use Rattle.report_lines.specs.Texts.{kind_word, head_form, is_game, is_dilemma, dilemma_word, game_form, noise_text, own_form, players_text, winner_word, score_text, scores_text, counts_text, match_text, rank_text, entry_form, line_text, is_match, counts_are, is_line, drill_text, first_form, total_text};

use crate::{Kind, Line, ShownEntry, ShownFirst, ShownGame, ShownHead, ShownMatch, ShownOwn};
use fixed_span::{Span, Verdict, compare};
use history_model::{Noise, Tally};
use std::alloc::AllocError;
use std::fmt;
use texts::SignedScore;

// A score: a point once, and any other span by both ends with `..` between.
#[derive(Clone, Copy)]
struct ShownScore {
    span: Span,
}

impl fmt::Display for ShownScore {
    ghost output = { λ score. Some (score_text score.span) };

    fn fmt<W: fmt::Write>(&self, f: &mut fmt::Formatter<W>) -> fmt::Result {
        let (lo, hi) = self.span.ends();
        let low = SignedScore { units: lo };
        let high = SignedScore { units: hi };
        if lo == hi {
            write!(f, "{low}")
        } else {
            write!(f, "{low}..{high}")
        }
    }
}

fn kind_word(kind: Kind) -> &'static str
    ensures { result.now ≡ kind_word kind }
{
    match kind {
        Kind::Match => "match",
        Kind::Tournament => "tournament",
        Kind::Drill => "drill",
    }
}

fn sum_of(a: i64, b: i64) -> i64
    requires first { unsigned_abs a ≤ 1000000 }
    requires second { unsigned_abs b ≤ 1000000 }
    ensures { result ≡ a +ℤ b }
{
    a + b
}

fn twice(a: i64) -> i64
    requires { unsigned_abs a ≤ 1000000 }
    ensures { result ≡ pos 2 *ℤ a }
{
    2 * a
}

// Whether two rounds of C against C are paid more than one of each in turn.
fn alternates(r: i64, s: i64, t: i64) -> bool
    requires r { unsigned_abs r ≤ 1000000 }
    requires s { unsigned_abs s ≤ 1000000 }
    requires t { unsigned_abs t ≤ 1000000 }
    ensures { result ≡ int_lt (t +ℤ s) (pos 2 *ℤ r) }
{
    sum_of(t, s) < twice(r)
}

fn is_dilemma(game: &ShownGame) -> bool
    requires { is_game game.now ≡ true }
    ensures { result ≡ is_dilemma game.now }
{
    game.r < game.t && game.p < game.r && (game.s < game.p && alternates(game.r, game.s, game.t))
}

fn dilemma_word(dilemma: bool) -> &'static str
    ensures { result.now ≡ dilemma_word dilemma }
{
    if dilemma { "yes" } else { "no" }
}

fn winner_word(left: Span, right: Span) -> &'static str
    ensures { result.now ≡ winner_word (verdict left right) }
{
    match compare(left, right) {
        Verdict::Greater => "left",
        Verdict::Less => "right",
        Verdict::Level => "level",
        Verdict::Undecided => "undecided",
    }
}

fn add_head(text: &mut String, head: &ShownHead) -> Result<(), AllocError>
    ensures { OnOk result (string_bytes text.new ≡ string_bytes text.old ++ (codes "axlab|" ++ head_form.text head.now)) }
{
    let version = head.version;
    let word = kind_word(head.kind);
    write!(text, "axlab|{version}|{word}")
}

fn add_game(text: &mut String, game: &ShownGame) -> Result<(), AllocError>
    requires { is_game game.now ≡ true }
    ensures { OnOk result (string_bytes text.new ≡ string_bytes text.old ++ (codes "game|" ++ game_form.text game.now)) }
{
    let word = dilemma_word(is_dilemma(game));
    let (r, s, t, p) = (game.r, game.s, game.t, game.p);
    write!(text, "game|{r}|{s}|{t}|{p}|dilemma|{word}")
}

fn add_noise(text: &mut String, noise: &Noise) -> Result<(), AllocError>
    ensures { OnOk result (string_bytes text.new ≡ string_bytes text.old ++ (codes "noise|" ++ noise_text noise.now)) }
{
    let (n, e) = (noise.n, noise.e);
    write!(text, "noise|{n}|{e}")
}

fn add_own(text: &mut String, own: &ShownOwn) -> Result<(), AllocError>
    ensures { OnOk result (string_bytes text.new ≡ string_bytes text.old ++ (codes "own|" ++ own_form.text own.now)) }
{
    let name = &own.name;
    let (n, e) = (own.noise.n, own.noise.e);
    write!(text, "own|{name}|{n}|{e}")
}

fn add_players(text: &mut String, found: &ShownMatch) -> Result<(), AllocError>
    ensures { OnOk result (string_bytes text.new ≡ string_bytes text.old ++ players_text found.now.left found.now.right found.now.turns) }
{
    let left = &found.left;
    let right = &found.right;
    let turns = found.turns;
    write!(text, "match|{left}|{right}|{turns}|")
}

fn add_scores(text: &mut String, left: Span, right: Span) -> Result<(), AllocError>
    ensures { OnOk result (string_bytes text.new ≡ string_bytes text.old ++ scores_text left right) }
{
    let word = winner_word(left, right);
    let left = ShownScore { span: left };
    let right = ShownScore { span: right };
    write!(text, "{left}|{right}|{word}|")
}

fn add_tally(text: &mut String, tally: &Tally) -> Result<(), AllocError>
    requires { total tally.now ≤ 10 ^ 12 }
    ensures { OnOk result (string_bytes text.new ≡ string_bytes text.old ++ counts_text (Some tally.now)) }
{
    let (cc, cd, dc, dd) = (tally.cc, tally.cd, tally.dc, tally.dd);
    let left = cc + cd;
    let right = cc + dc;
    write!(text, "sure|{left}|{right}|{cc}|{cd}|{dc}|{dd}")
}

fn add_counts(text: &mut String, tally: &Option<Tally>, turns: u64) -> Result<(), AllocError>
    requires counts { counts_are turns tally.now ≡ true }
    requires turns { turns ≤ 10 ^ 12 }
    ensures { OnOk result (string_bytes text.new ≡ string_bytes text.old ++ counts_text tally.now) }
{
    match tally {
        None => text.push_str("mixed"),
        Some(tally) => add_tally(text, tally),
    }
}

fn add_match(text: &mut String, found: &ShownMatch) -> Result<(), AllocError>
    requires { is_match found.now ≡ true }
    ensures { OnOk result (string_bytes text.new ≡ string_bytes text.old ++ match_text found.now) }
{
    add_players(text, found)?;
    add_scores(text, found.left_score, found.right_score)?;
    add_counts(text, &found.tally, found.turns)
}

fn add_rank(text: &mut String, rank: Option<u32>) -> Result<(), AllocError>
    ensures { OnOk result (string_bytes text.new ≡ string_bytes text.old ++ rank_text rank) }
{
    match rank {
        None => text.push_str("undecided"),
        Some(rank) => write!(text, "{rank}"),
    }
}

fn add_entry(text: &mut String, entry: &ShownEntry) -> Result<(), AllocError>
    ensures { OnOk result (string_bytes text.new ≡ string_bytes text.old ++ (codes "entry|" ++ entry_form.text entry.now)) }
{
    let name = &entry.name;
    let total = ShownScore { span: entry.total };
    let (wins, undecided) = (entry.wins, entry.undecided);
    write!(text, "entry|{name}|{total}|")?;
    add_rank(text, entry.rank)?;
    write!(text, "|{wins}|{undecided}")
}

fn add_drill(text: &mut String, number: u64) -> Result<(), AllocError>
    ensures { OnOk result (string_bytes text.new ≡ string_bytes text.old ++ drill_text number) }
{
    write!(text, "drill|{number}|64|1000000000")
}

fn add_first(text: &mut String, first: &ShownFirst) -> Result<(), AllocError>
    ensures { OnOk result (string_bytes text.new ≡ string_bytes text.old ++ (codes "first|" ++ first_form.text first.now)) }
{
    let name = &first.name;
    let total = ShownScore {
        span: Span::point(first.total),
    };
    write!(text, "first|{name}|{total}")
}

fn add_total(text: &mut String, sum: i128) -> Result<(), AllocError>
    ensures { OnOk result (string_bytes text.new ≡ string_bytes text.old ++ total_text sum) }
{
    let sum = ShownScore {
        span: Span::point(sum),
    };
    write!(text, "total|{sum}")
}

/// Adds the text of a line that is in range, without its LF.
///
/// # Errors
///
/// `AllocError` alone.
pub fn push_line(text: &mut String, line: &Line) -> Result<(), AllocError>
    requires { is_line line.now ≡ true }
    ensures { OnOk result (string_bytes text.new ≡ string_bytes text.old ++ line_text line.now) }
{
    match line {
        Line::Head(head) => add_head(text, head),
        Line::Game(game) => add_game(text, game),
        Line::Noise(noise) => add_noise(text, noise),
        Line::Own(own) => add_own(text, own),
        Line::Match(found) => add_match(text, found),
        Line::Entry(entry) => add_entry(text, entry),
        Line::Drill(number) => add_drill(text, *number),
        Line::First(first) => add_first(text, first),
        Line::Total(sum) => add_total(text, *sum),
        Line::End => text.push_str("end"),
    }
}
