//! The tables `game` and `noise`.
ghost use Rattle.std.specs.Prelude.{◌≡◌, ◌≤◌, ◌⊎◌, IfOk};
ghost use Rattle.toml.specs.View.{table_view};
ghost use Rattle.history_model.specs.Game.{IsGame};
ghost use Rattle.history_model.specs.Noise.{no_noise};
ghost use Rattle.game_file.specs.GameOf.{usual_game, lowest, payoff_at, payoffs_in, below, needed_offset, raised, IsWithin, AreWithin, game_from, game_at, flip_rate_in, noise_at, entry_flip_rate, game_of, IsOffset};

use history_model::{Game, Noise};
use lab_keys::{optional_table_at, signed_at, whole_at};
use refusals::{KeyName, Place, Refusal, TableName};
use toml::Table;

// The least payoff, in a file whose payoffs may lie below 0.
const LEAST_PAYOFF: i64 = -1_000_000;

// The greatest payoff.
const MOST_PAYOFF: i64 = 1_000_000;

// How far apart two payoffs may lie.
const MOST_APART: u64 = 1_000_000;

// The greatest denominator of the chance that a move is flipped.
const LAST_DEN: u64 = 1000;

// The version of a lab file whose payoffs are never below 0.
const FIRST_VERSION: u32 = 1;

// The version of a lab file whose payoffs may be.
const LAST_VERSION: u32 = 2;

// The four payoffs of a file.
#[derive(Clone, Copy)]
struct FilePayoffs {
    r: i64,
    s: i64,
    t: i64,
    p: i64,
}

fn usual_game() -> Game
    ensures { result ≡ usual_game }
{
    Game {
        r: 3,
        s: 0,
        t: 5,
        p: 1,
    }
}

fn no_noise() -> Noise
    ensures { result ≡ no_noise }
{
    Noise { n: 0, e: 1 }
}

fn place(table: TableName, entry: u32, key: KeyName) -> Place
    ensures { result ≡ record { table = table; entry = entry; key = key } }
{
    Place { table, entry, key }
}

fn lowest(version: u32) -> i64
    ensures { result ≡ lowest version }
{
    if version == FIRST_VERSION {
        0
    } else {
        LEAST_PAYOFF
    }
}

fn payoff(tree: &Table, version: u32, key: KeyName) -> Result<i64, Refusal>
    ensures exact { result ≡ payoff_at version key (table_view tree.now) }
    ensures within { IfOk result IsWithin }
    ensures first { version ≡ 1 → IfOk result (λ found. below found ≡ 0) }
{
    let place = place(TableName::Game, 0, key);
    signed_at(tree, place, lowest(version), MOST_PAYOFF)
}

#[tactic(auto, unfolding(crate::specs::GameOf::payoffs_in))]
fn payoffs_in(tree: &Table, version: u32) -> Result<FilePayoffs, Refusal>
    ensures exact { result ≡ payoffs_in version (table_view tree.now) }
    ensures within { IfOk result AreWithin }
    ensures first { version ≡ 1 → IfOk result (λ file. needed_offset file ≡ 0) }
{
    let r = payoff(tree, version, KeyName::R)?;
    let s = payoff(tree, version, KeyName::S)?;
    let t = payoff(tree, version, KeyName::T)?;
    let p = payoff(tree, version, KeyName::P)?;
    Ok(FilePayoffs { r, s, t, p })
}

// How far a payoff lies below 0.
fn below(payoff: i64) -> u32
    requires within { IsWithin payoff }
    ensures value { result ≡ below payoff }
    ensures bound { result ≤ 1000000 }
{
    if payoff < 0 {
        payoff.unsigned_abs() as u32
    } else {
        0
    }
}

// How far the least payoff lies below 0.
fn needed_offset(file: &FilePayoffs) -> u32
    requires within { AreWithin file.now }
    ensures value { result ≡ needed_offset file.now }
    ensures bound { result ≤ 1000000 }
{
    let (r, s) = (below(file.r), below(file.s));
    let (t, p) = (below(file.t), below(file.p));
    r.max(s).max(t).max(p)
}

// A payoff plus the offset, which is no less than it lies below 0.
fn raised(payoff: i64, offset: u32) -> u64
    requires within { IsWithin payoff }
    requires enough { below payoff ≤ offset }
    requires few { offset ≤ 1000000 }
    ensures value { result ≡ raised offset payoff }
    ensures bound { result ≤ 2000000 }
{
    (payoff + offset as i64) as u64
}

fn signed(r: u64, s: u64, t: u64, p: u64) -> Game
    requires { IsGame (record { r = r; s = s; t = t; p = p }) }
    ensures { result ≡ record { r = r; s = s; t = t; p = p } }
{
    Game {
        r: r as i64,
        s: s as i64,
        t: t as i64,
        p: p as i64,
    }
}

// The raised game and its offset, where the payoffs are near.
fn game_from(file: &FilePayoffs) -> Result<(Game, u32), Refusal>
    requires within { AreWithin file.now }
    ensures exact { result ≡ game_from file.now }
    ensures offset { IfOk result (λ read. IsOffset read.0 read.1) }
    ensures same { IfOk result (λ read. read.1 ≡ needed_offset file.now) }
{
    let offset = needed_offset(file);
    let (r, s) = (raised(file.r, offset), raised(file.s, offset));
    let (t, p) = (raised(file.t, offset), raised(file.p, offset));
    let least = r.min(s).min(t).min(p);
    let most = r.max(s).max(t).max(p);
    if least + MOST_APART < most {
        return Err(Refusal::OutOfRange(place(TableName::Game, 0, KeyName::P)));
    }
    Ok((signed(r, s, t, p), offset))
}

fn game_at(top: &Table, version: u32) -> Result<(Game, u32), Refusal>
    ensures exact { result ≡ game_at version (table_view top.now) }
    ensures offset { IfOk result (λ read. IsOffset read.0 read.1) }
    ensures first { version ≡ 1 → IfOk result (λ read. read.1 ≡ 0) }
{
    match optional_table_at(top, place(TableName::Top, 0, KeyName::Game))? {
        Some(tree) => {
            let file = payoffs_in(tree, version)?;
            game_from(&file)
        }
        None => Ok((usual_game(), 0)),
    }
}

#[tactic(auto, unfolding(crate::specs::GameOf::flip_rate_in))]
fn flip_rate_in(tree: &Table, table: TableName, entry: u32) -> Result<Noise, Refusal>
    ensures { result ≡ flip_rate_in table entry (table_view tree.now) }
{
    let e = whole_at(tree, place(table, entry, KeyName::E), 1, LAST_DEN)?;
    let n = whole_at(tree, place(table, entry, KeyName::N), 0, e / 2)?;
    Ok(Noise {
        n: n as u32,
        e: e as u32,
    })
}

fn noise_at(top: &Table) -> Result<Noise, Refusal>
    ensures { result ≡ noise_at (table_view top.now) }
{
    match optional_table_at(top, place(TableName::Top, 0, KeyName::Noise))? {
        Some(tree) => flip_rate_in(tree, TableName::Noise, 0),
        None => Ok(no_noise()),
    }
}

/// Reads the tables `game` and `noise` of the top of a lab file of this version: the payoffs plus
/// the offset, each from 0 to 1,000,000; the offset, by which scores count each of them less, from 0
/// to 1,000,000; and the noise. It takes no memory. The offset is 0 where no payoff is below 0, else
/// the least one's negative; so it is 0 in version 1.
///
/// `game` may be absent, which means the payoffs 3, 0, 5 and 1. Its keys, all required, are `r`,
/// `s`, `t` and `p`, from 0 to 1,000,000 in version 1, and from -1,000,000 to 1,000,000 in version
/// 2, where the greatest less the least is at most 1,000,000. `noise` may be absent, which means 0/1.
/// Its keys, both required, are `e` from 1 to 1000 and `n` from 0 to half of `e`.
///
/// # Errors
///
/// `Version` for another version than 1 and 2, and then nothing is read. Otherwise `MissingKey`,
/// `WrongType` and `OutOfRange` at the first wrong key: `game` with its keys, and then `noise` with
/// its keys, each in the order above. Payoffs that lie too far apart are `OutOfRange` at `p`, once
/// all four are read.
#[tactic(auto, unfolding(crate::specs::GameOf::game_of))]
pub fn read_game(table: &Table, version: u32) -> Result<(Game, u32, Noise), Refusal>
    ensures exact { result ≡ game_of version (table_view table.now) }
    ensures offset { IfOk result (λ read. IsOffset read.0 read.1) }
    ensures first { version ≡ 1 → IfOk result (λ read. read.1 ≡ 0) }
    ensures version { IfOk result (λ _. (version ≡ 1) ⊎ (version ≡ 2)) }
{
    if version != FIRST_VERSION && version != LAST_VERSION {
        return Err(Refusal::Version);
    }
    let (game, offset) = game_at(table, version)?;
    let noise = noise_at(table)?;
    Ok((game, offset, noise))
}

/// Reads the table `noise` of the entry of this number, counted from 1. Its keys, both required, are
/// `e` from 1 to 1000 and `n` from 0 to half of `e`. It takes no memory.
///
/// # Errors
///
/// `MissingKey`, `WrongType` and `OutOfRange` at the first wrong key, `e` before `n`. Their place is
/// a key of that entry.
pub fn read_noise(table: &Table, entry: u32) -> Result<Noise, Refusal>
    ensures { result ≡ entry_flip_rate entry (table_view table.now) }
{
    flip_rate_in(table, TableName::Entry, entry)
}
