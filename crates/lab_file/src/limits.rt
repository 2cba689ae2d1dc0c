//! The job of a command, and its limits.
ghost use Rattle.std.specs.Prelude.{◌≡◌, ◌<◌, ◌≤◌, ◌*◌, ◌^◌, length, sum_by, Ok, Err, IfOk, IfErr, OnOk};
ghost use Rattle.std.specs.List.{list_any};
ghost use Rattle.job_tables.specs.Jobs.{IsMatchJob};
ghost use Rattle.lab_file.specs.Limits.{most_turns, work_of, limits_by, pair_is_sure, match_limits, is_too_long, pair_work, tournament_limits, limits_of, IsJobOf};
ghost use Rattle.job_tables.specs.Tournament.{tournament_pairs};

use crate::rows::entry_rows;
use crate::sure::entry_is_sure;
use crate::{Command, Entries, Lab, MatchJob, TournamentJob};
use player_core::PlugNote;
use refusals::Refusal;

// The most turns of a match that is sure, and of any other.
const MOST_SURE_TURNS: u64 = 1_000_000_000_000;

const MOST_MIXED_TURNS: u64 = 10_000;

// The most pairs of rows, times the turns, of the matches that aren't sure.
const MOST_WORK: u128 = 30_000_000;

fn most_turns(sure: bool) -> u64
    ensures { result ≡ most_turns sure }
{
    if sure {
        MOST_SURE_TURNS
    } else {
        MOST_MIXED_TURNS
    }
}

// The pairs of rows, times the turns, of a match that isn't sure.
fn work_of(sure: bool, left_rows: u32, right_rows: u32, turns: u64) -> u128
    ensures work { result ≡ work_of sure left_rows right_rows turns }
    ensures few { result ≤ 2 ^ 64 * turns }
{
    if sure {
        return 0;
    }
    let pairs = left_rows as u64 * right_rows as u64;
    pairs as u128 * turns as u128
}

// The limits of a match between automata of so many rows.
fn limits_by(sure: bool, left_rows: u32, right_rows: u32, turns: u64) -> Result<(), Refusal>
    ensures { result ≡ limits_by sure left_rows right_rows turns }
{
    if turns > most_turns(sure) {
        return Err(Refusal::TooManyTurns);
    }
    if work_of(sure, left_rows, right_rows, turns) > MOST_WORK {
        return Err(Refusal::TooMuchWork);
    }
    Ok(())
}

// Whether a pair of entries leaves nothing to chance.
fn pair_is_sure(entries: &Entries, notes: &Vec<PlugNote>, pair: (u32, u32)) -> bool
    requires left { pair.0 < length entries.now }
    requires right { pair.1 < length entries.now }
    ensures { result ≡ pair_is_sure notes.now.items entries.now pair }
{
    entry_is_sure(notes, entries.at(pair.0 as usize))
        && entry_is_sure(notes, entries.at(pair.1 as usize))
}

fn match_limits(entries: &Entries, notes: &Vec<PlugNote>, job: &MatchJob) -> Result<(), Refusal>
    requires { IsMatchJob (length entries.now) job.now }
    ensures { result ≡ match_limits notes.now.items entries.now job.now }
{
    limits_by(
        pair_is_sure(entries, notes, (job.left, job.right)),
        entry_rows(notes, entries.at(job.left as usize)),
        entry_rows(notes, entries.at(job.right as usize)),
        job.turns,
    )
}

fn pair_work(entries: &Entries, notes: &Vec<PlugNote>, turns: u64, pair: (u32, u32)) -> u128
    requires left { pair.0 < length entries.now }
    requires right { pair.1 < length entries.now }
    ensures work { result ≡ pair_work notes.now.items entries.now turns pair }
    ensures few { result ≤ 2 ^ 64 * turns }
{
    work_of(
        pair_is_sure(entries, notes, pair),
        entry_rows(notes, entries.at(pair.0 as usize)),
        entry_rows(notes, entries.at(pair.1 as usize)),
        turns,
    )
}

fn is_too_long(entries: &Entries, notes: &Vec<PlugNote>, turns: u64, pair: (u32, u32)) -> bool
    requires left { pair.0 < length entries.now }
    requires right { pair.1 < length entries.now }
    ensures { result ≡ is_too_long notes.now.items entries.now turns pair }
{
    turns > most_turns(pair_is_sure(entries, notes, pair))
}

// Whether some match of a tournament has too many turns.
fn has_long_match(entries: &Entries, notes: &Vec<PlugNote>, job: &TournamentJob) -> bool
    requires { length entries.now ≤ 64 }
    ensures { result ≡ list_any (is_too_long notes.now.items entries.now job.now.turns) (tournament_pairs job.now (length entries.now)) }
{
    let count = entries.len() as u32;
    let mut long = false;
    for field in 0..count as u64 * count as u64 {
        if let Some(pair) = job.played_at(count, field) {
            long = long || is_too_long(entries, notes, job.turns, pair);
        }
    }
    long
}

// The work of all matches of a tournament together.
#[tactic(auto, using(crate::proofs::Keeping::sum_played, crate::proofs::Keeping::sum_passed))]
fn tournament_work(entries: &Entries, notes: &Vec<PlugNote>, job: &TournamentJob) -> u128
    requires few { length entries.now ≤ 64 }
    requires turns { job.now.turns ≤ 10 ^ 12 }
    ensures { result ≡ sum_by (pair_work notes.now.items entries.now job.now.turns) (tournament_pairs job.now (length entries.now)) }
{
    let count = entries.len() as u32;
    let mut work: u128 = 0;
    for field in 0..count as u64 * count as u64 {
        if let Some(pair) = job.played_at(count, field) {
            work += pair_work(entries, notes, job.turns, pair);
        }
    }
    work
}

fn tournament_limits(
    entries: &Entries,
    notes: &Vec<PlugNote>,
    job: &TournamentJob,
) -> Result<(), Refusal>
    requires few { length entries.now ≤ 64 }
    requires turns { job.now.turns ≤ 10 ^ 12 }
    ensures { result ≡ tournament_limits notes.now.items entries.now job.now }
{
    if has_long_match(entries, notes, job) {
        return Err(Refusal::TooManyTurns);
    }
    if tournament_work(entries, notes, job) > MOST_WORK {
        return Err(Refusal::TooMuchWork);
    }
    Ok(())
}

/// The job of a command, in the lab that has it.
#[derive(Clone, Copy)]
pub enum Job<'a> {
    Match(&'a MatchJob),
    Tournament(&'a TournamentJob),
}

impl Lab {
    /// The job of a command, where the lab has it and it keeps the limits. The notes are of the
    /// plugs that the bench has. Takes no memory.
    ///
    /// # Errors
    ///
    /// `NoJob` where the lab has no table for the command. Then `TooManyTurns` where a sure match has
    /// over 10^12 turns, or any other over 10,000. Then `TooMuchWork` where the rows of the two
    /// entries' automata and the turns, multiplied, are over 30,000,000: for a match that isn't sure,
    /// and in a tournament for all such matches added up. `NotBuilt` for other commands.
    pub fn job(&self, command: Command, notes: &Vec<PlugNote>) -> Result<Job<'_>, Refusal>
        ensures job { IfOk result (IsJobOf command self.now) }
        ensures kept { OnOk result (limits_of notes.now.items command self.now ≡ Ok tt) }
        ensures refused { IfErr result (λ refusal. limits_of notes.now.items command self.now ≡ Err refusal) }
    {
        match command {
            Command::Match => match &self.jobs.match_job {
                Some(job) => {
                    match_limits(&self.entries, notes, job)?;
                    Ok(Job::Match(job))
                }
                None => Err(Refusal::NoJob),
            },
            Command::Tournament => match &self.jobs.tournament_job {
                Some(job) => {
                    tournament_limits(&self.entries, notes, job)?;
                    Ok(Job::Tournament(job))
                }
                None => Err(Refusal::NoJob),
            },
            _ => Err(Refusal::NotBuilt),
        }
    }

    /// Whether the lab has the job of a command, and the job keeps the limits. The notes are of the
    /// plugs that the bench has. Takes no memory.
    ///
    /// # Errors
    ///
    /// The refusals of `job`.
    pub fn limits(&self, command: Command, notes: &Vec<PlugNote>) -> Result<(), Refusal>
        ensures { result ≡ limits_of notes.now.items command self.now }
    {
        self.job(command, notes)?;
        Ok(())
    }
}
