//! The job of a tournament.
ghost use Rattle.std.specs.Prelude.{◌≡◌, ◌≢◌, ◌<◌, ◌≤◌, ◌*◌, ◌++◌, [], ◌∷◌, length, false, map, option_map, IfOk, IfSome};
ghost use Rattle.std.specs.List.{list_any};
ghost use Rattle.toml.specs.View.{view, table_view, array_view};
ghost use Rattle.refusals.specs.Refusing.{Gives};
ghost use Rattle.job_tables.specs.Jobs.{AreEdges, IsTournamentJob};
ghost use Rattle.job_tables.specs.JobsOf.{is_doubled, edge_of, edges_from, edges_if, edges_at, tournament_of, tournament_if, tournament_at};
ghost use Rattle.job_tables.specs.Tournament.{joins};

use crate::jobs::MOST_TURNS;
use crate::places::{key_of, place_named};
use history_model::Name;
use lab_keys::{optional_pairs_at, optional_table_at, pair_of, truth_at, whole_at};
use refusals::{FileError, KeyName, Refusal, TableName};
use std::alloc::Global;
use std::marker::Model;
use toml::value::Array;
use toml::{Table, Value};

/// Two entries that meet, by their places, counted from 0. They are not the same.
#[derive(Clone, Copy, Debug, PartialEq, Eq)]
pub struct Edge {
    /// The place of the entry that is named first.
    pub left: u32,
    /// The place of the other.
    pub right: u32,
}

impl Edge {
    /// Whether the edge joins these two entries, in either order.
    pub fn joins(&self, left: u32, right: u32) -> bool
        ensures { result ≡ joins left right self.now }
    {
        self.left == left && self.right == right || self.left == right && self.right == left
    }
}

/// The edges of a tournament, in the order of the file. Contracts see them as their list.
#[derive(Drop)]
pub struct Edges {
    items: Vec<Edge>,
}

impl Model for Edges {
    ghost use Rattle.std.specs.Prelude.{List};
    ghost use Rattle.job_tables.specs.declared.tournament.Edge.{Edge};

    ghost Value = { List Edge };

    ghost view = { λ s. s.items.items };
}

impl Edges {
    /// The edges as a slice.
    pub fn as_slice(&self) -> &[Edge]
        ensures { result.now ≡ self.now }
    {
        &self.items
    }
}

/// A match between each two entries that meet.
#[derive(Drop)]
pub struct TournamentJob {
    /// The turns of each match, 1 to 10^12.
    pub turns: u64,
    /// Whether each entry meets itself too.
    pub self_play: bool,
    /// Which two entries meet; without edges any two do.
    pub edges: Option<Edges>,
}

/// Whether one of the edges joins these two entries, in either order.
pub fn any_joins(edges: &[Edge], left: u32, right: u32) -> bool
    ensures { result ≡ list_any (joins left right) edges.now }
{
    edges.iter().any(|edge| edge.joins(left, right))
}

// An edge between these is one of an entry with itself, or joins the two of an earlier one.
fn is_doubled(before: &[Edge], left: u32, right: u32) -> bool
    ensures { result ≡ is_doubled before.now left right }
{
    left == right || any_joins(before, left, right)
}

// The edge behind these.
#[tactic(auto, unfolding(crate::specs::JobsOf::edge_of), using(crate::proofs::Joining::few_edges))]
fn edge_of(names: &[Name], before: &[Edge], value: &Value) -> Result<Edge, Refusal>
    requires few { length names.now ≤ 64 }
    requires sound { AreEdges (length names.now) before.now }
    ensures edge { result ≡ edge_of names.now before.now (view value.now) }
    ensures sound { IfOk result (λ edge. AreEdges (length names.now) (before.now ++ edge ∷ [])) }
{
    let place = key_of(TableName::Tournament, KeyName::Edges);
    let (left_name, right_name) = pair_of(value, place)?;
    let left = place_named(names, place, left_name)?;
    let right = place_named(names, place, right_name)?;
    if is_doubled(before, left, right) {
        return Err(Refusal::DoubledEdge(before.len() as u32 + 1));
    }
    Ok(Edge { left, right })
}

fn edges_from(alloc: Global, names: &[Name], array: &Array) -> Result<Edges, FileError>
    requires { length names.now ≤ 64 }
    ensures edges { Gives (λ edges. edges) result (edges_from names.now [] (array_view array.now)) }
    ensures sound { IfOk result (AreEdges (length names.now)) }
{
    let mut before: Vec<Edge> = Vec::new(alloc);
    for value in array {
        let edge = edge_of(names, before.as_slice(), value)?;
        before.push(edge)?;
    }
    Ok(Edges { items: before })
}

#[tactic(auto, unfolding(crate::specs::JobsOf::edges_at))]
fn edges_at(alloc: Global, names: &[Name], job: &Table) -> Result<Option<Edges>, FileError>
    requires { length names.now ≤ 64 }
    ensures edges { Gives (λ edges. edges) result (edges_at names.now (table_view job.now)) }
    ensures sound { IfOk result (λ edges. IfSome edges (AreEdges (length names.now))) }
{
    match optional_pairs_at(job, key_of(TableName::Tournament, KeyName::Edges))? {
        Some(pairs) => {
            let edges = edges_from(alloc, names, pairs)?;
            Ok(Some(edges))
        }
        None => Ok(None),
    }
}

#[tactic(auto, unfolding(crate::specs::JobsOf::tournament_of))]
fn tournament_of(alloc: Global, names: &[Name], job: &Table) -> Result<TournamentJob, FileError>
    requires { length names.now ≤ 64 }
    ensures job { Gives (λ job. job) result (tournament_of names.now (table_view job.now)) }
    ensures sound { IfOk result (IsTournamentJob (length names.now)) }
{
    let turns = whole_at(
        job,
        key_of(TableName::Tournament, KeyName::Turns),
        1,
        MOST_TURNS,
    )?;
    let self_play = truth_at(job, key_of(TableName::Tournament, KeyName::SelfPlay), false)?;
    let edges = edges_at(alloc, names, job)?;
    Ok(TournamentJob {
        turns,
        self_play,
        edges,
    })
}

/// The tournament of a document whose entries have these names, where its table stands.
///
/// # Errors
///
/// The first wrong key, in the order turns, self-play, edges. Of edges the types are tested first,
/// then the lengths of all pairs, then the names edge by edge. And `NoMemory`.
#[tactic(auto, unfolding(crate::specs::JobsOf::tournament_at))]
pub fn tournament_at(
    alloc: Global,
    names: &[Name],
    tree: &Table,
) -> Result<Option<TournamentJob>, FileError>
    requires { length names.now ≤ 64 }
    ensures job { Gives (λ job. job) result (tournament_at names.now (table_view tree.now)) }
    ensures sound { IfOk result (λ job. IfSome job (IsTournamentJob (length names.now))) }
{
    match optional_table_at(tree, key_of(TableName::Top, KeyName::Tournament))? {
        Some(job) => {
            let found = tournament_of(alloc, names, job)?;
            Ok(Some(found))
        }
        None => Ok(None),
    }
}
