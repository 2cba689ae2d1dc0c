//! The drill of a number: who is first among machines that are drawn from it.
ghost use Rattle.std.specs.Prelude.{◌≡◌, ◌<◌, ◌≤◌, All, length, map, IfOk};
ghost use Rattle.std.specs.List.{range_with_len};
ghost use Rattle.history_model.specs.Noise.{no_noise};
ghost use Rattle.player_core.specs.State.{players_of};
ghost use Rattle.player_core.specs.Bench.{KeepsBench};
ghost use Rattle.player_core.specs.Fits.{Fits};
ghost use Rattle.round_robin.specs.Asked.{bench_turns, AreAsked};
ghost use Rattle.report_rules.specs.Text.{report_text};
ghost use Rattle.report_rules.specs.Valid.{IsValid};
ghost use Rattle.drill.specs.Drill.{drill_name};
ghost use Rattle.play_commands.specs.Machines.{AreMachines, AreStill, IsSmallTotal, IsTold, drill_job, drill_pairs, first_of, is_first, line_at, machine_strategies, sum_of_totals, total_at};
ghost use Rattle.play_commands.specs.MayAsk.{MayAskDrill, MayAskMachines, UpTo};
ghost use Rattle.play_commands.specs.RightDrill.{IsAskedDrill, IsRightDrill};

use drill::{drill_name, drill_sheets};
use history_model::{Game, Name, NoMemory, Noise};
use lab_file::TournamentJob;
use lab_file::laws::tournaments_ascend;
use player_core::{Bench, Player, Seen, Sheet};
use report_making::drill_report;
use report_rules::Report;
use round_robin::laws::sums_are_held;
use round_robin::{Contestant, EntryLine, Rank, Totals, entry_totals};
use std::alloc::Global;

// How many machines there are, and how many turns each two of them play.
const MACHINES: u32 = 64;

const TURNS: u64 = 1_000_000_000;

// The machines as contestants, whose moves are never flipped.
fn contestants<'a>(
    alloc: Global,
    sheets: &'a [Sheet],
    noise: &'a Noise,
) -> Result<Vec<Contestant<'a>>, NoMemory>
    requires still { noise.now ≡ no_noise }
    ensures { IfOk result (λ contestants. AreStill sheets.now contestants.items) }
{
    let mut contestants = Vec::new(alloc);
    for sheet in sheets {
        contestants.push(Contestant { sheet, noise })?;
    }
    Ok(contestants)
}

// What the matches between all machines come to, for which the bench's players are asked.
fn results(alloc: Global, sheets: &[Sheet], bench: &mut Bench) -> Result<Totals, NoMemory>
    requires fits { Fits (⟦<Bench as Seen>⟧.view bench.old) }
    requires machines { AreMachines sheets.now }
    ensures told { IfOk result (λ totals. IsTold (players_of (⟦<Bench as Seen>⟧.view bench.old)) sheets.now totals.entries) }
    ensures most { MayAskMachines (⟦<Bench as Seen>⟧.view bench.old) (⟦<Bench as Seen>⟧.view bench.new) sheets.now }
    ensures asked { IfOk result (λ _. AreAsked (machine_strategies (players_of (⟦<Bench as Seen>⟧.view bench.old)) sheets.now) drill_job.turns drill_pairs (bench_turns (⟦<Bench as Seen>⟧.view bench.old)) (bench_turns (⟦<Bench as Seen>⟧.view bench.new))) }
    ensures kept { KeepsBench (⟦<Bench as Seen>⟧.view bench.old) (⟦<Bench as Seen>⟧.view bench.new) }
{
    tournaments_ascend();
    sums_are_held();
    let noise = Noise { n: 0, e: 1 };
    let game = Game {
        r: 3,
        s: 0,
        t: 5,
        p: 1,
    };
    let job = TournamentJob {
        turns: TURNS,
        self_play: false,
        edges: None,
    };
    let contestants = contestants(alloc, sheets, &noise)?;
    let pairs = job.pairs(alloc, sheets.len() as u32)?;
    let results = entry_totals(alloc, bench, &contestants, &pairs, &game, 0, job.turns)?;
    Ok(results)
}

fn is_first(rank: Rank) -> bool
    ensures { result ≡ is_first rank }
{
    rank == Rank::At(1)
}

// Whether the entry at a place is of the first rank.
fn leads(entries: &[EntryLine], place: u32) -> bool
    requires { place < length entries.now }
    ensures { result ≡ is_first (line_at entries.now place).rank }
{
    is_first(entries[place as usize].rank)
}

// The place and the total of an entry.
fn total_at(entries: &[EntryLine], place: u32) -> (u32, i128)
    requires { place < length entries.now }
    ensures { result ≡ total_at entries.now place }
{
    let (total, _) = entries[place as usize].total.ends();
    (place, total)
}

// The entries of the first rank, in order, each with its total.
fn first_of(alloc: Global, entries: &[EntryLine]) -> Result<Vec<(u32, i128)>, NoMemory>
    requires { length entries.now ≤ 64 }
    ensures { IfOk result (λ first. first.items ≡ first_of entries.now) }
{
    let mut first: Vec<(u32, i128)> = Vec::new(alloc);
    for place in 0..entries.len() as u32 {
        if leads(entries, place) {
            first.push(total_at(entries, place))?;
        }
    }
    Ok(first)
}

// The sum of all totals.
fn sum_of_totals(entries: &[EntryLine]) -> i128
    requires few { length entries.now ≤ 64 }
    requires small { All (λ (entry : EntryLine). IsSmallTotal entry.total) entries.now }
    ensures { result ≡ sum_of_totals entries.now }
{
    let mut sum: i128 = 0;
    for entry in entries {
        sum += entry.total.ends().0;
    }
    sum
}

// The names of the machines, in order.
fn names(alloc: Global) -> Result<Vec<Name>, NoMemory>
    ensures { IfOk result (λ names. names.items ≡ map drill_name (range_with_len 0 64)) }
{
    let mut names = Vec::new(alloc);
    for place in 0..MACHINES {
        names.push(drill_name(place))?;
    }
    Ok(names)
}

/// The report of the drill of a number, which the bench's players are asked for.
pub fn drill(alloc: Global, number: u64, bench: &mut Bench) -> Result<Report, NoMemory>
    requires { Fits (⟦<Bench as Seen>⟧.view bench.old) }
    ensures right { IfOk result (λ report. IsRightDrill (players_of (⟦<Bench as Seen>⟧.view bench.old)) number (report_text report)) }
    ensures valid { IfOk result IsValid }
    ensures most { UpTo (⟦<Bench as Seen>⟧.view bench.old) (⟦<Bench as Seen>⟧.view bench.new) (MayAskDrill (⟦<Bench as Seen>⟧.view bench.old) (⟦<Bench as Seen>⟧.view bench.new) number) }
    ensures asked { IfOk result (λ _. IsAskedDrill (⟦<Bench as Seen>⟧.view bench.old) (⟦<Bench as Seen>⟧.view bench.new) number) }
    ensures kept { KeepsBench (⟦<Bench as Seen>⟧.view bench.old) (⟦<Bench as Seen>⟧.view bench.new) }
{
    let sheets = drill_sheets(alloc, number)?;
    let results = results(alloc, sheets.as_slice(), bench)?;
    let entries = results.entries.as_slice();
    let first = first_of(alloc, entries)?;
    let sum = sum_of_totals(entries);
    let names = names(alloc)?;
    drill_report(alloc, number, &names, &first, sum)
}
