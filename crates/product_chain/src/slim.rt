//! The chain in 64 bits: means by parts of a whole, rounded down. A turn misses 6 parts of a point at
//! most.
ghost use Rattle.std.specs.Prelude.{◌≡◌, ℕ, ◌+◌, ◌-◌, ◌*◌, ◌/◌, ◌^◌, ◌<◌, ◌≤◌, List, length, IfOk, replicate, slice_index, slice_index_or, Vec};
ghost use Rattle.std.specs.declared.alloc.Global.{Global};
ghost use Rattle.history_model.specs.Expectation.{shown};
ghost use Rattle.product_chain.specs.Course.{AreInside, AreRowWeights, IsCourse};
ghost use Rattle.product_chain.specs.Layer.{IsCell, AreNone, IsLayer, IsSide, IsTable, own_rows, other_rows};
ghost use Rattle.product_chain.specs.Scale.{IsScale};
ghost use Rattle.product_chain.specs.Slim.{AreDrawn, AreLess, AreMixed, CellsHaveRoom, AreMovedTo, AreParts, IsMix, IsPart, IsSlimPlan, slim_grain};

use crate::course::{Course, Fork, course_of, shown_weights};
use crate::divide::upper;
use crate::scale::gain;
use crate::side::Side;
use history_model::{Grid, Move, NoMemory, Noise};
use std::alloc::Global;

const WHOLE: u64 = 0x8000_0000_0000_0000;

/// The parts that the points of all turns may come to.
pub const SLIM_ROOM: u128 = 0x7fff_ffff_ffff_ffff;

/// All that the turns have in common: the parts of C at each row, where the moves lead, and the parts
/// of a point.
#[derive(Drop)]
pub struct SlimPlan<'a> {
    pub side: &'a Side<'a>,
    pub scale: u64,
    pub own_parts: Vec<u64>,
    pub other_parts: Vec<u64>,
    pub after_c: Course,
    pub after_d: Course,
}

// The mean of `c` by the part and of `d` by the rest of a whole: d + part * (c - d), with no sign.
#[inline(always)]
fn mix(part: u64, c: u64, d: u64) -> u64
    requires part { part < 2 ^ 63 }
    requires c { c < 2 ^ 63 }
    requires d { d < 2 ^ 63 }
    ensures { IsMix part c d result }
{
    let spread = c + WHOLE - d;
    d + upper(2 * part, spread) - part
}

// The row of cells of a fork, where the side's move is known and the other's is drawn.
fn fill_moved_row(
    cells: &mut [u64],
    parts: &[u64],
    answers: &[Fork],
    gain_c: u64,
    after_c: &[u64],
    gain_d: u64,
    after_d: &[u64],
)
    requires parts { length parts.now ≡ length cells.old }
    requires answers { length answers.now ≡ length cells.old }
    requires less { AreLess parts.now }
    requires inside_c { AreInside (length after_c.now) answers.now }
    requires inside_d { AreInside (length after_d.now) answers.now }
    requires room_c { CellsHaveRoom gain_c after_c.now }
    requires room_d { CellsHaveRoom gain_d after_d.now }
    ensures { AreDrawn parts.now answers.now gain_c after_c.now gain_d after_d.now (length cells.old) cells.new }
{
    for v in 0..cells.len() {
        let fork = answers[v];
        let c = gain_c + after_c[fork.c as usize];
        let d = gain_d + after_d[fork.d as usize];
        cells[v] = mix(parts[v], c, d);
    }
}

// The row of cells at a row of the side, whose move is drawn.
fn fill_row(cells: &mut [u64], part: u64, if_c: &[u64], if_d: &[u64])
    requires part { part < 2 ^ 63 }
    requires c_size { length if_c.now ≡ length cells.old }
    requires d_size { length if_d.now ≡ length cells.old }
    requires room_c { CellsHaveRoom 0 if_c.now }
    requires room_d { CellsHaveRoom 0 if_d.now }
    ensures { AreMixed part if_c.now if_d.now (length cells.old) cells.new }
{
    for v in 0..cells.len() {
        cells[v] = mix(part, if_c[v], if_d[v]);
    }
}

// The parts that `weight`/`over` comes to.
fn part(weight: u64, over: u64) -> u64
    requires some { 1 ≤ over }
    requires within { weight ≤ over }
    ensures { IsPart weight over result }
{
    let parts = weight as u128 * WHOLE as u128 / over as u128;
    parts.min(WHOLE as u128 - 1) as u64
}

// The parts of C at each row.
fn all_parts(alloc: Global, grid: &Grid, noise: &Noise, over: u64) -> Result<Vec<u64>, NoMemory>
    requires some { 1 ≤ over }
    requires over { over ≡ grid.now.den * noise.now.e }
    ensures { IfOk result (λ all. AreParts grid.now noise.now all.items) }
{
    let mut all = Vec::with_capacity(alloc, grid.len() as usize)?;
    for row in 0..grid.len() {
        all.push(part(shown_weights(grid, noise, row).c, over))?;
    }
    Ok(all)
}

/// What the turns have in common, for a scale.
pub fn slim_plan_of<'a>(
    alloc: Global,
    side: &'a Side<'a>,
    scale: u64,
) -> Result<SlimPlan<'a>, NoMemory>
    requires valid { IsSide side.now }
    ensures plan { IfOk result IsSlimPlan }
    ensures side { IfOk result (λ plan. plan.side.now ≡ side.now) }
    ensures scale { IfOk result (λ plan. plan.scale ≡ scale) }
{
    Ok(SlimPlan {
        side,
        scale,
        own_parts: all_parts(alloc, side.own, side.own_noise, side.own_over)?,
        other_parts: all_parts(alloc, side.other, side.other_noise, side.other_over)?,
        after_c: course_of(alloc, side, Move::C)?,
        after_d: course_of(alloc, side, Move::D)?,
    })
}

// Cells that hold nothing.
fn no_cells(alloc: Global, rows: usize, width: usize) -> Result<Vec<Vec<u64>>, NoMemory>
    ensures { IfOk result (λ table. AreNone rows width table.items) }
{
    let mut table = Vec::with_capacity(alloc, rows)?;
    for _row in 0..rows {
        table.push(vec![in alloc; 0; width]?)?;
    }
    Ok(table)
}

// The cells of a move of the side, with `n` turns after it.
fn fill_moved(
    cells: &mut [Vec<u64>],
    layer: &[Vec<u64>],
    plan: &SlimPlan,
    course: &Course,
    mine: Move,
    n: u32,
    turns: u32,
)
    requires valid { IsSide plan.now.side.now }
    requires plan { IsSlimPlan plan.now }
    requires course { IsCourse plan.now.side.now mine course.now }
    requires scale { IsScale plan.now.side.now.game.now turns (2 ^ 63 - 1) plan.now.scale }
    requires n { n < turns }
    requires layer { IsLayer plan.now.side.now (slim_grain plan.now.side.now plan.now.scale) n layer.now }
    requires cells { IsTable (length course.now.forks.items) (other_rows plan.now.side.now) cells.old }
    ensures { AreMovedTo plan.now.side.now (slim_grain plan.now.side.now plan.now.scale) n mine course.now.forks.items (length course.now.forks.items) cells.new }
{
    let gain_c = gain(plan.side.game, mine, Move::C, plan.scale as u128) as u64;
    let gain_d = gain(plan.side.game, mine, Move::D, plan.scale as u128) as u64;
    for k in 0..course.forks.len() {
        let fork = course.forks[k];
        fill_moved_row(
            cells[k].as_mut_slice(),
            &plan.other_parts,
            &course.answers,
            gain_c,
            &layer[fork.c as usize],
            gain_d,
            &layer[fork.d as usize],
        );
    }
}

// The layer of one turn more.
fn fill_layer(
    layer: &mut [Vec<u64>],
    if_c: &[Vec<u64>],
    if_d: &[Vec<u64>],
    plan: &SlimPlan,
    n: u32,
    turns: u32,
)
    requires valid { IsSide plan.now.side.now }
    requires plan { IsSlimPlan plan.now }
    requires scale { IsScale plan.now.side.now.game.now turns (2 ^ 63 - 1) plan.now.scale }
    requires n { n < turns }
    requires if_c { AreMovedTo plan.now.side.now (slim_grain plan.now.side.now plan.now.scale) n Move.C plan.now.after_c.forks.items (length plan.now.after_c.forks.items) if_c.now }
    requires if_d { AreMovedTo plan.now.side.now (slim_grain plan.now.side.now plan.now.scale) n Move.D plan.now.after_d.forks.items (length plan.now.after_d.forks.items) if_d.now }
    requires layer { IsTable (own_rows plan.now.side.now) (other_rows plan.now.side.now) layer.old }
    ensures { IsLayer plan.now.side.now (slim_grain plan.now.side.now plan.now.scale) (n + 1) layer.new }
{
    for u in 0..layer.len() {
        fill_row(
            layer[u].as_mut_slice(),
            plan.own_parts[u],
            &if_c[plan.after_c.places[u] as usize],
            &if_d[plan.after_d.places[u] as usize],
        );
    }
}

/// The cell of the starts with all turns to come.
pub fn run_slim(alloc: Global, plan: &SlimPlan, turns: u32) -> Result<u64, NoMemory>
    requires valid { IsSide plan.now.side.now }
    requires plan { IsSlimPlan plan.now }
    requires scale { IsScale plan.now.side.now.game.now turns (2 ^ 63 - 1) plan.now.scale }
    ensures { IfOk result (IsCell plan.now.side.now (slim_grain plan.now.side.now plan.now.scale) turns plan.now.side.now.own.now.start plan.now.side.now.other.now.start) }
{
    let rows = plan.own_parts.len();
    let width = plan.other_parts.len();
    let mut layer = no_cells(alloc, rows, width)?;
    let mut if_c = no_cells(alloc, plan.after_c.forks.len(), width)?;
    let mut if_d = no_cells(alloc, plan.after_d.forks.len(), width)?;
    for n in 0..turns {
        fill_moved(&mut if_c, &layer, plan, &plan.after_c, Move::C, n, turns);
        fill_moved(&mut if_d, &layer, plan, &plan.after_d, Move::D, n, turns);
        fill_layer(&mut layer, &if_c, &if_d, plan, n, turns);
    }
    let own = plan.side.own;
    let other = plan.side.other;
    Ok(layer[own.start as usize][other.start as usize])
}
