//! Who meets whom in a tournament.
ghost use Rattle.std.specs.Prelude.{◌≡◌, ◌<◌, ◌≤◌, ◌+◌, ◌*◌, All, AllPairs, IfOk, IfSome};
ghost use Rattle.job_tables.specs.Tournament.{are_joined, is_played, played_at, played_before, with_match, tournament_pairs, ComesBefore};

use crate::tournament::{Edges, TournamentJob, any_joins};
use history_model::NoMemory;
use std::alloc::Global;

// Whether two different entries meet.
fn are_joined(edges: &Option<Edges>, left: u32, right: u32) -> bool
    ensures { result ≡ are_joined edges.now left right }
{
    match edges {
        Some(edges) => any_joins(edges.as_slice(), left, right),
        None => true,
    }
}

fn is_played(job: &TournamentJob, pair: (u32, u32)) -> bool
    ensures { result ≡ is_played job.now pair }
{
    if pair.0 == pair.1 {
        return job.self_play;
    }
    pair.0 < pair.1 && are_joined(&job.edges, pair.0, pair.1)
}

impl TournamentJob {
    /// The match at a field of the square of all pairs of so many entries, where one is played
    /// there. Field by field these are the matches in ascending order, as `pairs` gives them.
    pub fn played_at(&self, count: u32, field: u64) -> Option<(u32, u32)>
        requires { field < count * count }
        ensures played { result ≡ played_at self.now count field }
        ensures more { played_before self.now count (field + 1) ≡ with_match (played_before self.now count field) result }
        ensures within { IfSome result (λ pair. (pair.0 < count) × (pair.1 < count)) }
    {
        let left = field / count as u64;
        let right = field % count as u64;
        let pair = (left as u32, right as u32);
        if is_played(self, pair) {
            Some(pair)
        } else {
            None
        }
    }

    /// The matches of a tournament of so many entries, by the places of the two: of each two that
    /// are joined, the smaller place first, and in self-play of each entry with itself. They
    /// ascend by the left place, then by the right one.
    ///
    /// # Errors
    ///
    /// Want of memory alone.
    pub fn pairs(&self, alloc: Global, count: u32) -> Result<Vec<(u32, u32)>, NoMemory>
        ensures pairs { IfOk result (λ pairs. pairs.items ≡ tournament_pairs self.now count) }
        ensures ascending { IfOk result (λ pairs. AllPairs ComesBefore pairs.items) }
        ensures within { IfOk result (λ pairs. All (λ pair. (pair.0 ≤ pair.1) × (pair.1 < count)) pairs.items) }
    {
        let mut pairs: Vec<(u32, u32)> = Vec::new(alloc);
        for field in 0..count as u64 * count as u64 {
            if let Some(pair) = self.played_at(count, field) {
                pairs.push(pair)?;
            }
        }
        Ok(pairs)
    }
}
