//! The match of a lab.
ghost use Rattle.std.specs.Prelude.{◌≡◌, ◌<◌, All, length, Some, Ok, IfOk};
ghost use Rattle.player_core.specs.State.{players_of};
ghost use Rattle.player_core.specs.Fits.{Fits};
ghost use Rattle.player_core.specs.Bench.{KeepsBench, notes_of};
ghost use Rattle.report_rules.specs.Text.{report_text};
ghost use Rattle.report_rules.specs.Valid.{IsShowable, IsValid};
ghost use Rattle.report_making.specs.Made.{match_report_of};
ghost use Rattle.lab_file.specs.declared.command.Command.TheVariants as commands;
ghost use Rattle.job_tables.specs.Jobs.{IsMatchJob};
ghost use Rattle.lab_file.specs.Lab.{entry_at};
ghost use Rattle.lab_file.specs.Notes.{AreNoted};
ghost use Rattle.lab_file.specs.Limits.{match_limits, limits_of};
ghost use Rattle.play_commands.specs.Contestants.{IsContestantOf};
ghost use Rattle.play_commands.specs.MayAsk.{MayAskBetween, MayAskMatch, UpTo};
ghost use Rattle.play_commands.specs.RightLine.{IsAskedBetween, IsRightBetween, head_of_lab};
ghost use Rattle.play_commands.specs.RightMatch.{IsAskedMatch, IsRightMatch};
ghost use Rattle.play_commands.specs.Ready.{IsReadyEntry};

use history_model::NoMemory;
use lab_file::laws::notes_tell;
use lab_file::{Lab, MatchJob};
use match_play::MatchLine;
use player_core::{Bench, Player, Seen};
use report_making::match_report;
use report_rules::{Head, Report};
use round_robin::{Contestant, entry_line};
use std::alloc::Global;
use strategy_file::Draft;

/// The entry at a place, as one that takes part.
pub(crate) fn contestant(lab: &Lab, place: u32) -> Contestant<'_>
    requires inside { place < length lab.now.entries }
    requires ready { All IsReadyEntry lab.now.entries }
    ensures { IsContestantOf lab.now place result }
{
    let entry = lab.entries.at(place as usize);
    match &entry.draft {
        Draft::Ready(sheet) => {
            sheet.shape();
            Contestant {
                sheet,
                noise: &entry.noise,
            }
        }
        Draft::FromFile(_) => unreachable!(),
    }
}

/// What a report tells of the lab.
pub(crate) fn head(lab: &Lab) -> Head
    ensures head { result ≡ head_of_lab lab.now }
{
    Head {
        version: lab.version,
        offset: lab.offset,
        game: lab.game,
        noise: lab.noise,
    }
}

// The line of the lab's match, for which the bench's players are asked.
fn job_line(
    alloc: Global,
    lab: &Lab,
    job: &MatchJob,
    bench: &mut Bench,
) -> Result<MatchLine, NoMemory>
    requires fits { Fits (⟦<Bench as Seen>⟧.view bench.old) }
    requires sound { IsMatchJob (length lab.now.entries) job.now }
    requires limits { match_limits (notes_of (players_of (⟦<Bench as Seen>⟧.view bench.old))) lab.now.entries job.now ≡ Ok tt }
    requires ready { All IsReadyEntry lab.now.entries }
    requires noted { AreNoted (notes_of (players_of (⟦<Bench as Seen>⟧.view bench.old))) lab.now.entries }
    ensures right { IfOk result (IsRightBetween (players_of (⟦<Bench as Seen>⟧.view bench.old)) lab.now job.now.left job.now.right job.now.turns) }
    ensures showable { IfOk result (IsShowable (head_of_lab lab.now)) }
    ensures most { UpTo (⟦<Bench as Seen>⟧.view bench.old) (⟦<Bench as Seen>⟧.view bench.new) (MayAskBetween (⟦<Bench as Seen>⟧.view bench.old) (⟦<Bench as Seen>⟧.view bench.new) lab.now job.now.left job.now.right) }
    ensures asked { IfOk result (λ _. IsAskedBetween (⟦<Bench as Seen>⟧.view bench.old) (⟦<Bench as Seen>⟧.view bench.new) lab.now job.now.left job.now.right job.now.turns) }
    ensures kept { KeepsBench (⟦<Bench as Seen>⟧.view bench.old) (⟦<Bench as Seen>⟧.view bench.new) }
{
    notes_tell();
    lab.shape();
    let left = contestant(lab, job.left);
    let right = contestant(lab, job.right);
    entry_line(
        alloc, bench, &left, &right, &lab.game, lab.offset, job.turns,
    )
}

// The report of the lab's match with this line.
fn line_report(
    alloc: Global,
    lab: &Lab,
    job: &MatchJob,
    line: &MatchLine,
) -> Result<Report, NoMemory>
    requires sound { IsMatchJob (length lab.now.entries) job.now }
    requires showable { IsShowable (head_of_lab lab.now) line.now }
    ensures report { IfOk result (λ report. report ≡ match_report_of (head_of_lab lab.now) (entry_at lab.now.entries job.now.left).name (entry_at lab.now.entries job.now.right).name (entry_at lab.now.entries job.now.left).noise (entry_at lab.now.entries job.now.right).noise line.now) }
    ensures valid { IfOk result IsValid }
{
    lab.shape();
    let head = head(lab);
    let left = lab.entries.at(job.left as usize);
    let right = lab.entries.at(job.right as usize);
    match_report(
        alloc,
        &head,
        &left.name,
        &right.name,
        &left.noise,
        &right.noise,
        line,
    )
}

/// The report of the lab's match, which the bench's players are asked for.
pub fn lab_match(
    alloc: Global,
    lab: &Lab,
    job: &MatchJob,
    bench: &mut Bench,
) -> Result<Report, NoMemory>
    requires fits { Fits (⟦<Bench as Seen>⟧.view bench.old) }
    requires job { lab.now.jobs.match_job ≡ Some job.now }
    requires limits { limits_of (notes_of (players_of (⟦<Bench as Seen>⟧.view bench.old))) commands.Match lab.now ≡ Ok tt }
    requires ready { All IsReadyEntry lab.now.entries }
    requires noted { AreNoted (notes_of (players_of (⟦<Bench as Seen>⟧.view bench.old))) lab.now.entries }
    ensures right { IfOk result (λ report. IsRightMatch (players_of (⟦<Bench as Seen>⟧.view bench.old)) lab.now (report_text report)) }
    ensures valid { IfOk result IsValid }
    ensures most { UpTo (⟦<Bench as Seen>⟧.view bench.old) (⟦<Bench as Seen>⟧.view bench.new) (MayAskMatch (⟦<Bench as Seen>⟧.view bench.old) (⟦<Bench as Seen>⟧.view bench.new) lab.now) }
    ensures asked { IfOk result (λ _. IsAskedMatch (⟦<Bench as Seen>⟧.view bench.old) (⟦<Bench as Seen>⟧.view bench.new) lab.now) }
    ensures kept { KeepsBench (⟦<Bench as Seen>⟧.view bench.old) (⟦<Bench as Seen>⟧.view bench.new) }
{
    lab.shape();
    let line = job_line(alloc, lab, job, bench)?;
    line_report(alloc, lab, job, &line)
}
