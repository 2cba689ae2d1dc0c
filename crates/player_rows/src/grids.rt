//! Grids of entrants, one of each kind, with rows that were worked out by hand.
ghost use Rattle.player_core.specs.Fits.{Fits};

use crate::machines::machine;
use crate::tables::table;
use crate::vectors::vector;
use history_model::{Grid, GridRow, Noise};
use lookup_player::LookupPlayer;
use machine_player::MachinePlayer;
use memory_player::MemoryPlayer;
use player_core::{Bench, Kind, Player, Seen, Sheet, Side};
use plug_players::{Builtin, PlugPlayer};
use round_robin::{Contestant, entry_grid};
use std::alloc::Global;
use std::test::Fail;

// The first plug of this side is Defector, and the second one Alternator.
fn side(alloc: Global) -> Result<Side, Fail> {
    let mut players: Side = Vec::new(alloc);
    players.push(Box::new(alloc, MemoryPlayer::new(alloc)?)?)?;
    players.push(Box::new(alloc, MachinePlayer::new(alloc)?)?)?;
    players.push(Box::new(alloc, LookupPlayer::new(alloc)?)?)?;
    players.push(Box::new(alloc, PlugPlayer::new(Builtin::Defector))?)?;
    players.push(Box::new(alloc, PlugPlayer::new(Builtin::Alternator))?)?;
    Ok(players)
}

// The grid of a sheet, and how often the players of either side were advanced.
fn grid_on(alloc: Global, sheet: &Sheet) -> Result<(Grid, u64, u64), Fail> {
    let mut bench = Bench {
        left: side(alloc)?,
        right: side(alloc)?,
    };
    if !bench.fits() {
        return Err(Fail::from("the bench doesn't fit"));
    }
    let noise = Noise { n: 0, e: 1 };
    let before = (advances(&bench.left), advances(&bench.right));
    let grid = grid_of(alloc, &mut bench, sheet, &noise)?;
    Ok((
        grid,
        advances(&bench.left).saturating_sub(before.0),
        advances(&bench.right).saturating_sub(before.1),
    ))
}

// The same of a bench that fits.
fn grid_of(alloc: Global, bench: &mut Bench, sheet: &Sheet, noise: &Noise) -> Result<Grid, Fail>
    requires fits { Fits (⟦<Bench as Seen>⟧.view bench.old) }
{
    sheet.shape();
    match bench.place(sheet) {
        Some(_) => match entry_grid(alloc, bench, &Contestant { sheet, noise }) {
            Ok(grid) => Ok(grid),
            Err(_) => Err(Fail::from("no memory")),
        },
        None => Err(Fail::from("nobody takes the sheet")),
    }
}

// The sheet of a built-in.
fn plug(alloc: Global, which: Builtin) -> Sheet {
    Sheet {
        kind: Kind::Plug,
        den: 1,
        own: 0,
        other: 0,
        first: 0,
        opening: Vec::new(alloc),
        table: Vec::new(alloc),
        next: Vec::new(alloc),
        plug: which.name(),
    }
}

// How often the players of a side were advanced.
fn advances(players: &Side) -> u64 {
    let mut sum: u64 = 0;
    for player in players.iter() {
        sum = sum.saturating_add(player.advances());
    }
    sum
}

fn row(weight: u32, next: [u32; 4]) -> GridRow {
    GridRow { weight, next }
}

// What the grid of a sheet is, from row 0 on, with four advances a row on the left side and none on the right.
fn reads(
    alloc: Global,
    sheet: &Sheet,
    den: u32,
    rows: &[GridRow],
    advanced: u64,
) -> Result<bool, Fail> {
    let (grid, left, right) = grid_on(alloc, sheet)?;
    let same = grid.den == den && grid.start == 0 && grid.rows.as_slice() == rows;
    Ok(same && left == advanced && right == 0)
}

#[test]
fn reads_a_grid_of_each_kind(rt: HostRuntime) -> Result<(), Fail> {
    let alloc = rt.alloc();
    let mixed = vector(alloc, 10, 5, [1, 2, 3, 4])?;
    let after_each = [1, 2, 3, 4];
    let rows = [
        row(5, after_each),
        row(1, after_each),
        row(2, after_each),
        row(3, after_each),
        row(4, after_each),
    ];
    assert!(rt; reads(alloc, &mixed, 10, &rows, 20)?);
    // Tit for tat: in row 0 it is about to play C, in row 1 D.
    let tit_for_tat = machine(alloc, 1, &[1, 0], &[0, 0])?;
    let rows = [row(1, [0, 1, 0, 1]), row(0, [0, 1, 0, 1])];
    assert!(rt; reads(alloc, &tit_for_tat, 1, &rows, 8)?);
    // A weight after no play, after a heard C, and after a heard D.
    let wary = table(
        alloc,
        5,
        [0, 1, 0],
        vec![in alloc; 3]?,
        vec![in alloc; 4, 1]?,
    );
    let rows = [
        row(3, [1, 2, 1, 2]),
        row(4, [1, 2, 1, 2]),
        row(1, [1, 2, 1, 2]),
    ];
    assert!(rt; reads(alloc, &wary, 5, &rows, 12)?);
    let alternator = plug(alloc, Builtin::Alternator);
    // After a C of its own it is about to play D, whatever it hears.
    let rows = [row(1, [1, 1, 0, 0]), row(0, [1, 1, 0, 0])];
    assert!(rt; reads(alloc, &alternator, 1, &rows, 8)?);
    Ok(())
}
