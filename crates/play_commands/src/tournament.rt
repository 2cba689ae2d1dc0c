//! The tournament of a lab.
ghost use Rattle.std.specs.Prelude.{◌≡◌, All, length, Some, Ok, IfOk};
ghost use Rattle.player_core.specs.State.{players_of};
ghost use Rattle.player_core.specs.Fits.{Fits};
ghost use Rattle.player_core.specs.Bench.{KeepsBench, notes_of};
ghost use Rattle.sheet_rules.specs.Entrants.{entrants_of};
ghost use Rattle.round_robin.specs.Entries.{AreRightEntries, AreRightLines, EntriesAskedOn, EntriesAtMostOn, totals_by_rule};
ghost use Rattle.report_rules.specs.Text.{report_text};
ghost use Rattle.report_rules.specs.Valid.{IsValid};
ghost use Rattle.report_making.specs.Made.{AreResults, ShowsNames, tournament_report_of};
ghost use Rattle.lab_file.specs.declared.command.Command.TheVariants as commands;
ghost use Rattle.job_tables.specs.Jobs.{IsTournamentJob};
ghost use Rattle.lab_file.specs.Notes.{AreNoted};
ghost use Rattle.lab_file.specs.Limits.{tournament_limits, limits_of};
ghost use Rattle.job_tables.specs.Tournament.{tournament_pairs};
ghost use Rattle.play_commands.specs.Contestants.{AreFirst, noises_of};
ghost use Rattle.play_commands.specs.RightLine.{head_of_lab};
ghost use Rattle.lab_file.specs.Lab.{names_of};
ghost use Rattle.play_commands.specs.MayAsk.{MayAskTournament, UpTo};
ghost use Rattle.play_commands.specs.RightTournament.{IsAskedTournament, IsRightTournament};
ghost use Rattle.play_commands.specs.Ready.{IsReadyEntry};

use crate::matches::{contestant, head};
use history_model::{Name, NoMemory, Noise};
use lab_file::laws::{matches_are_kept, notes_tell, tournaments_ascend};
use lab_file::{Lab, TournamentJob};
use player_core::{Bench, Player, Seen};
use report_making::tournament_report;
use report_rules::Report;
use round_robin::{Contestant, Totals, entry_totals};
use std::alloc::Global;

// All entries, in file order.
fn contestants(alloc: Global, lab: &Lab) -> Result<Vec<Contestant<'_>>, NoMemory>
    requires ready { All IsReadyEntry lab.now.entries }
    ensures { IfOk result (λ contestants. AreFirst lab.now (length lab.now.entries) contestants.items) }
{
    let mut contestants = Vec::new(alloc);
    for place in 0..lab.entries.len() as u32 {
        contestants.push(contestant(lab, place))?;
    }
    Ok(contestants)
}

// The names of all entries, in file order.
fn names(alloc: Global, lab: &Lab) -> Result<Vec<Name>, NoMemory>
    ensures { IfOk result (λ names. names.items ≡ names_of lab.now.entries) }
{
    let mut names = Vec::new(alloc);
    for entry in lab.entries.as_slice() {
        names.push(entry.name)?;
    }
    Ok(names)
}

// The noises of all entries, in file order.
fn noises(alloc: Global, lab: &Lab) -> Result<Vec<Noise>, NoMemory>
    ensures { IfOk result (λ noises. noises.items ≡ noises_of lab.now.entries) }
{
    let mut noises = Vec::new(alloc);
    for entry in lab.entries.as_slice() {
        noises.push(entry.noise)?;
    }
    Ok(noises)
}

// What the matches of the lab's tournament come to, for which the bench's players are asked.
fn results(
    alloc: Global,
    lab: &Lab,
    job: &TournamentJob,
    contestants: &[Contestant<'_>],
    bench: &mut Bench,
) -> Result<Totals, NoMemory>
    requires fits { Fits (⟦<Bench as Seen>⟧.view bench.old) }
    requires sound { IsTournamentJob (length lab.now.entries) job.now }
    requires limits { tournament_limits (notes_of (players_of (⟦<Bench as Seen>⟧.view bench.old))) lab.now.entries job.now ≡ Ok tt }
    requires noted { AreNoted (notes_of (players_of (⟦<Bench as Seen>⟧.view bench.old))) lab.now.entries }
    requires contestants { AreFirst lab.now (length lab.now.entries) contestants.now }
    ensures lines { IfOk result (λ totals. AreRightLines (players_of (⟦<Bench as Seen>⟧.view bench.old)) lab.now.game lab.now.offset job.now.turns (entrants_of contestants.now) (tournament_pairs job.now (length lab.now.entries)) totals.matches) }
    ensures entries { IfOk result (λ totals. AreRightEntries (totals_by_rule (players_of (⟦<Bench as Seen>⟧.view bench.old)) lab.now.game lab.now.offset job.now.turns (entrants_of contestants.now) (tournament_pairs job.now (length lab.now.entries))) (length lab.now.entries) totals.entries) }
    ensures showable { IfOk result (AreResults (length lab.now.entries) (head_of_lab lab.now)) }
    ensures most { UpTo (⟦<Bench as Seen>⟧.view bench.old) (⟦<Bench as Seen>⟧.view bench.new) (EntriesAtMostOn (⟦<Bench as Seen>⟧.view bench.old) (⟦<Bench as Seen>⟧.view bench.new) (entrants_of contestants.now) (tournament_pairs job.now (length lab.now.entries))) }
    ensures asked { IfOk result (λ _. EntriesAskedOn (⟦<Bench as Seen>⟧.view bench.old) (⟦<Bench as Seen>⟧.view bench.new) (entrants_of contestants.now) job.now.turns (tournament_pairs job.now (length lab.now.entries))) }
    ensures kept { KeepsBench (⟦<Bench as Seen>⟧.view bench.old) (⟦<Bench as Seen>⟧.view bench.new) }
{
    notes_tell();
    tournaments_ascend();
    matches_are_kept();
    lab.shape();
    let pairs = job.pairs(alloc, lab.entries.len() as u32)?;
    let results = entry_totals(
        alloc,
        bench,
        contestants,
        &pairs,
        &lab.game,
        lab.offset,
        job.turns,
    )?;
    Ok(results)
}

// The report of the lab's tournament with these results.
fn table_report(alloc: Global, lab: &Lab, results: &Totals) -> Result<Report, NoMemory>
    requires showable { AreResults (length lab.now.entries) (head_of_lab lab.now) results.now }
    ensures report { IfOk result (λ report. report ≡ tournament_report_of (head_of_lab lab.now) (names_of lab.now.entries) (noises_of lab.now.entries) results.now) }
    ensures valid { IfOk result IsValid }
    ensures shows { IfOk result (λ _. ShowsNames (names_of lab.now.entries) results.now) }
{
    lab.shape();
    let head = head(lab);
    let names = names(alloc, lab)?;
    let noises = noises(alloc, lab)?;
    let report = tournament_report(alloc, &head, &names, &noises, results)?;
    Ok(report)
}

/// The report of the lab's tournament, which the bench's players are asked for.
pub fn lab_tournament(
    alloc: Global,
    lab: &Lab,
    job: &TournamentJob,
    bench: &mut Bench,
) -> Result<Report, NoMemory>
    requires fits { Fits (⟦<Bench as Seen>⟧.view bench.old) }
    requires job { lab.now.jobs.tournament_job ≡ Some job.now }
    requires limits { limits_of (notes_of (players_of (⟦<Bench as Seen>⟧.view bench.old))) commands.Tournament lab.now ≡ Ok tt }
    requires ready { All IsReadyEntry lab.now.entries }
    requires noted { AreNoted (notes_of (players_of (⟦<Bench as Seen>⟧.view bench.old))) lab.now.entries }
    ensures right { IfOk result (λ report. IsRightTournament (players_of (⟦<Bench as Seen>⟧.view bench.old)) lab.now (report_text report)) }
    ensures valid { IfOk result IsValid }
    ensures most { UpTo (⟦<Bench as Seen>⟧.view bench.old) (⟦<Bench as Seen>⟧.view bench.new) (MayAskTournament (⟦<Bench as Seen>⟧.view bench.old) (⟦<Bench as Seen>⟧.view bench.new) lab.now) }
    ensures asked { IfOk result (λ _. IsAskedTournament (⟦<Bench as Seen>⟧.view bench.old) (⟦<Bench as Seen>⟧.view bench.new) lab.now) }
    ensures kept { KeepsBench (⟦<Bench as Seen>⟧.view bench.old) (⟦<Bench as Seen>⟧.view bench.new) }
{
    lab.shape();
    let contestants = contestants(alloc, lab)?;
    let results = results(alloc, lab, job, &contestants, bench)?;
    table_report(alloc, lab, &results)
}
