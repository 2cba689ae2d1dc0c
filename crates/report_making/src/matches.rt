//! Makes the reports of matches.
ghost use Rattle.std.specs.Prelude.{◌≡◌, IfOk, bytes_eq};
ghost use Rattle.report_rules.specs.Valid.{IsHead, IsShowable, IsValid};
ghost use Rattle.report_making.specs.Made.{match_report_of, names_of_pair, noises_of_pair};

use history_model::{Name, NoMemory, Noise};
use report_rules::{Body, Head, Names, Noises, Report};
use result_lines::MatchLine;
use std::alloc::Global;

fn is_same(left: &Name, right: &Name) -> bool
    ensures { result ≡ bytes_eq left.now right.now }
{
    left.bytes() == right.bytes()
}

// The names of two players; one where they are the same.
fn names_of_pair(alloc: Global, left: &Name, right: &Name) -> Result<Names, NoMemory>
    ensures { IfOk result (λ names. names ≡ names_of_pair left.now right.now) }
{
    let mut names = Names::new(alloc);
    names.place(left)?;
    names.place(right)?;
    Ok(names)
}

// The noises of two players, one where their names are the same; none in version 1.
fn noises_of_pair(
    alloc: Global,
    version: u32,
    left: &Name,
    right: &Name,
    left_noise: &Noise,
    right_noise: &Noise,
) -> Result<Noises, NoMemory>
    ensures { IfOk result (λ noises. noises ≡ noises_of_pair version left.now right.now left_noise.now right_noise.now) }
{
    let mut noises = Vec::new(alloc);
    if version != 1 {
        noises.push(*left_noise)?;
        if !is_same(left, right) {
            noises.push(*right_noise)?;
        }
    }
    Ok(Noises::from_vec(noises))
}

/// The report of one match between players of these names: what `line` says of it, apart from the
/// places of its entries, which are here those of the names in the report. In version 2 it shows the
/// noise of each name: that of `left`, and that of `right` where its name is another one.
///
/// # Errors
///
/// `NoMemory` alone.
pub fn match_report(
    alloc: Global,
    head: &Head,
    left: &Name,
    right: &Name,
    left_noise: &Noise,
    right_noise: &Noise,
    line: &MatchLine,
) -> Result<Report, NoMemory>
    requires head { IsHead head.now }
    requires showable { IsShowable head.now line.now }
    ensures report { IfOk result (λ report. report ≡ match_report_of head.now left.now right.now left_noise.now right_noise.now line.now) }
    ensures valid { IfOk result IsValid }
{
    // The parts are in range by their types.
    let _ranges = (
        head.game.unsigned(),
        head.noise.denominator(),
        left_noise.denominator(),
        right_noise.denominator(),
        left.len(),
        right.len(),
    );
    let names = names_of_pair(alloc, left, right)?;
    let noises = noises_of_pair(alloc, head.version, left, right, left_noise, right_noise)?;
    Ok(Report {
        version: head.version,
        offset: head.offset,
        game: head.game,
        noise: head.noise,
        noises,
        names,
        body: Body::Match {
            line: MatchLine {
                left: 0,
                right: if is_same(left, right) { 0 } else { 1 },
                turns: line.turns,
                left_score: line.left_score,
                right_score: line.right_score,
                tally: line.tally,
            },
        },
    })
}
