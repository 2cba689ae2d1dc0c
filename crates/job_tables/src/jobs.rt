//! The jobs of a lab, and the table of a match.
ghost use Rattle.std.specs.Prelude.{◌≡◌, ◌<◌, ◌≤◌, length, option_map, IfOk, IfSome};
ghost use Rattle.toml.specs.View.{table_view};
ghost use Rattle.refusals.specs.Refusing.{Gives, seen_by};
ghost use Rattle.job_tables.specs.Jobs.{AreJobs, IsMatchJob};
ghost use Rattle.job_tables.specs.JobsOf.{top, place_of, place_named, place_at, match_of, match_at, has_unbuilt, jobs_of};

use crate::places::{key_of, place_at};
use crate::tournament::{TournamentJob, tournament_at};
use history_model::Name;
use lab_keys::{found_at, optional_table_at, whole_at};
use refusals::{FileError, KeyName, Refusal, TableName};
use std::alloc::Global;
use toml::Table;

/// The most turns that the key of a job may give.
pub const MOST_TURNS: u64 = 1_000_000_000_000;

// The tables of the jobs that aren't built.
const UNBUILT: [KeyName; 6] = [
    KeyName::Rota,
    KeyName::Board,
    KeyName::Moran,
    KeyName::Best,
    KeyName::Mean,
    KeyName::Certificate,
];

/// One match of two entries, which may be the same.
#[derive(Clone, Copy, Debug, PartialEq, Eq)]
pub struct MatchJob {
    /// The place of the left entry, counted from 0.
    pub left: u32,
    /// The place of the right entry.
    pub right: u32,
    /// The turns, 1 to 10^12.
    pub turns: u64,
}

/// The jobs of a lab: those whose tables stand in the file.
#[derive(Drop)]
pub struct Jobs {
    /// The table `match`.
    pub match_job: Option<MatchJob>,
    /// The table `tournament`.
    pub tournament_job: Option<TournamentJob>,
}

#[tactic(auto, unfolding(crate::specs::JobsOf::match_of))]
fn match_of(names: &[Name], job: &Table) -> Result<MatchJob, Refusal>
    requires { length names.now ≤ 64 }
    ensures job { result ≡ match_of names.now (table_view job.now) }
    ensures sound { IfOk result (IsMatchJob (length names.now)) }
{
    let left = place_at(names, key_of(TableName::Match, KeyName::Left), job)?;
    let right = place_at(names, key_of(TableName::Match, KeyName::Right), job)?;
    let turns = whole_at(job, key_of(TableName::Match, KeyName::Turns), 1, MOST_TURNS)?;
    Ok(MatchJob { left, right, turns })
}

#[tactic(auto, unfolding(crate::specs::JobsOf::match_at))]
fn match_at(names: &[Name], tree: &Table) -> Result<Option<MatchJob>, Refusal>
    requires { length names.now ≤ 64 }
    ensures job { result ≡ match_at names.now (table_view tree.now) }
    ensures sound { IfOk result (λ job. IfSome job (IsMatchJob (length names.now))) }
{
    match optional_table_at(tree, key_of(TableName::Top, KeyName::Match))? {
        Some(job) => {
            let found = match_of(names, job)?;
            Ok(Some(found))
        }
        None => Ok(None),
    }
}

// Something stands at the key of a job that isn't built.
fn has_unbuilt(tree: &Table) -> bool
    ensures { result ≡ has_unbuilt (table_view tree.now) }
{
    UNBUILT.iter().any(|job| found_at(tree, key_of(TableName::Top, *job)).is_some())
}

/// The jobs of a document whose entries have these names, in the order of their tables.
///
/// # Errors
///
/// The first wrong key; then `NotBuilt` where a table of a job that isn't built stands; and
/// `NoMemory`.
#[tactic(auto, unfolding(crate::specs::JobsOf::jobs_of))]
pub fn jobs_of(alloc: Global, names: &[Name], tree: &Table) -> Result<Jobs, FileError>
    requires { length names.now ≤ 64 }
    ensures jobs { Gives (λ jobs. jobs) result (jobs_of names.now (table_view tree.now)) }
    ensures sound { IfOk result (AreJobs (length names.now)) }
{
    let match_job = match_at(names, tree)?;
    let tournament_job = tournament_at(alloc, names, tree)?;
    if has_unbuilt(tree) {
        return Err(FileError::Refused(Refusal::NotBuilt));
    }
    Ok(Jobs {
        match_job,
        tournament_job,
    })
}
