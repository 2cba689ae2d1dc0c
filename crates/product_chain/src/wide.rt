//! The chain in 128 bits: exact sums by the weights of a turn, divided once. A turn misses 4 parts of a
//! point at most.
ghost use Rattle.std.specs.Prelude.{◌≡◌, ℕ, ◌+◌, ◌*◌, ◌/◌, ◌^◌, ◌<◌, ◌≤◌, List, length, IfOk, replicate, slice_index, slice_index_or, Vec};
ghost use Rattle.std.specs.declared.alloc.Global.{Global};
ghost use Rattle.product_chain.specs.Course.{AreInside, IsCourse};
ghost use Rattle.product_chain.specs.Layer.{AreNone, IsCell, IsLayer, IsSide, IsTable, one_play, own_rows, other_rows};
ghost use Rattle.product_chain.specs.Scale.{IsScale};
ghost use Rattle.product_chain.specs.Wide.{AreDivided, AreFew, AreSummed, AreSumsTo, AreWithin, HasWideRoom, IsWidePlan, wide_grain};

use crate::course::{Course, Fork, Weights, course_of, row_weights};
use crate::divide::{Divisor, divided};
use crate::scale::gain;
use crate::side::Side;
use history_model::{Move, NoMemory};
use std::alloc::Global;

/// The parts that the points of all turns may come to.
pub const WIDE_ROOM: u128 = 1 << 86;

/// All that the turns have in common: the weights of the moves at each row, where the moves lead, the
/// denominator of one play, and the parts of a point.
#[derive(Drop)]
pub struct WidePlan<'a> {
    pub side: &'a Side<'a>,
    pub scale: u128,
    pub by: Divisor,
    pub own_weights: Vec<Weights>,
    pub other_weights: Vec<Weights>,
    pub after_c: Course,
    pub after_d: Course,
}

// The sum of `c` and `d` by the weights.
#[inline(always)]
pub fn weighed(weights: Weights, c: u128, d: u128) -> u128
    requires few { weights.c + weights.d ≤ 1000000 }
    requires c { c ≤ 2 ^ 106 }
    requires d { d ≤ 2 ^ 106 }
    ensures { result ≡ weights.c * c + weights.d * d }
{
    weights.c as u128 * c + weights.d as u128 * d
}

// The row of cells of a fork, where the side's move is known and the other's is drawn.
fn fill_moved_row(
    cells: &mut [u128],
    weights: &[Weights],
    answers: &[Fork],
    gain_c: u128,
    after_c: &[u128],
    gain_d: u128,
    after_d: &[u128],
)
    requires weights { length weights.now ≡ length cells.old }
    requires answers { length answers.now ≡ length cells.old }
    requires few { AreFew weights.now }
    requires inside_c { AreInside (length after_c.now) answers.now }
    requires inside_d { AreInside (length after_d.now) answers.now }
    requires room_c { HasWideRoom gain_c after_c.now }
    requires room_d { HasWideRoom gain_d after_d.now }
    ensures { AreSummed weights.now answers.now gain_c after_c.now gain_d after_d.now (length cells.old) cells.new }
{
    for v in 0..cells.len() {
        let fork = answers[v];
        let c = gain_c + after_c[fork.c as usize];
        let d = gain_d + after_d[fork.d as usize];
        cells[v] = weighed(weights[v], c, d);
    }
}

// The row of cells at a row of the side, whose move is drawn.
fn fill_row(cells: &mut [u128], weights: Weights, if_c: &[u128], if_d: &[u128], by: &Divisor)
    requires few { weights.c + weights.d ≤ 1000000 }
    requires c_size { length if_c.now ≡ length cells.old }
    requires d_size { length if_d.now ≡ length cells.old }
    requires within_c { AreWithin if_c.now }
    requires within_d { AreWithin if_d.now }
    ensures { AreDivided weights by.now.q if_c.now if_d.now (length cells.old) cells.new }
{
    for v in 0..cells.len() {
        cells[v] = divided(weighed(weights, if_c[v], if_d[v]), by);
    }
}

/// What the turns have in common, for a scale.
pub fn wide_plan_of<'a>(
    alloc: Global,
    side: &'a Side<'a>,
    scale: u128,
) -> Result<WidePlan<'a>, NoMemory>
    requires valid { IsSide side.now }
    ensures plan { IfOk result IsWidePlan }
    ensures side { IfOk result (λ plan. plan.side.now ≡ side.now) }
    ensures scale { IfOk result (λ plan. plan.scale ≡ scale) }
{
    Ok(WidePlan {
        side,
        scale,
        by: Divisor::new(side.own_over * side.other_over),
        own_weights: row_weights(alloc, side.own, side.own_noise)?,
        other_weights: row_weights(alloc, side.other, side.other_noise)?,
        after_c: course_of(alloc, side, Move::C)?,
        after_d: course_of(alloc, side, Move::D)?,
    })
}

// Cells of no turns: each is 0.
fn no_cells(alloc: Global, rows: usize, width: usize) -> Result<Vec<Vec<u128>>, NoMemory>
    ensures { IfOk result (λ table. AreNone rows width table.items) }
{
    let mut table = Vec::with_capacity(alloc, rows)?;
    for _row in 0..rows {
        table.push(vec![in alloc; 0; width]?)?;
    }
    Ok(table)
}

// The cells of a move of the side, with `n` turns after it.
fn fill_moved(
    cells: &mut [Vec<u128>],
    layer: &[Vec<u128>],
    plan: &WidePlan,
    course: &Course,
    mine: Move,
    n: u32,
    turns: u32,
)
    requires valid { IsSide plan.now.side.now }
    requires plan { IsWidePlan plan.now }
    requires course { IsCourse plan.now.side.now mine course.now }
    requires scale { IsScale plan.now.side.now.game.now turns (2 ^ 86) plan.now.scale }
    requires n { n < turns }
    requires layer { IsLayer plan.now.side.now (wide_grain plan.now.side.now plan.now.scale) n layer.now }
    requires cells { IsTable (length course.now.forks.items) (other_rows plan.now.side.now) cells.old }
    ensures { AreSumsTo plan.now.side.now (wide_grain plan.now.side.now plan.now.scale) n mine course.now.forks.items (length course.now.forks.items) cells.new }
{
    let gain_c = gain(plan.side.game, mine, Move::C, plan.scale);
    let gain_d = gain(plan.side.game, mine, Move::D, plan.scale);
    for k in 0..course.forks.len() {
        let fork = course.forks[k];
        fill_moved_row(
            cells[k].as_mut_slice(),
            &plan.other_weights,
            &course.answers,
            gain_c,
            &layer[fork.c as usize],
            gain_d,
            &layer[fork.d as usize],
        );
    }
}

// The layer of one turn more.
fn fill_layer(
    layer: &mut [Vec<u128>],
    if_c: &[Vec<u128>],
    if_d: &[Vec<u128>],
    plan: &WidePlan,
    n: u32,
    turns: u32,
)
    requires valid { IsSide plan.now.side.now }
    requires plan { IsWidePlan plan.now }
    requires scale { IsScale plan.now.side.now.game.now turns (2 ^ 86) plan.now.scale }
    requires n { n < turns }
    requires if_c { AreSumsTo plan.now.side.now (wide_grain plan.now.side.now plan.now.scale) n Move.C plan.now.after_c.forks.items (length plan.now.after_c.forks.items) if_c.now }
    requires if_d { AreSumsTo plan.now.side.now (wide_grain plan.now.side.now plan.now.scale) n Move.D plan.now.after_d.forks.items (length plan.now.after_d.forks.items) if_d.now }
    requires layer { IsTable (own_rows plan.now.side.now) (other_rows plan.now.side.now) layer.old }
    ensures { IsLayer plan.now.side.now (wide_grain plan.now.side.now plan.now.scale) (n + 1) layer.new }
{
    for u in 0..layer.len() {
        fill_row(
            layer[u].as_mut_slice(),
            plan.own_weights[u],
            &if_c[plan.after_c.places[u] as usize],
            &if_d[plan.after_d.places[u] as usize],
            &plan.by,
        );
    }
}

/// The cell of the starts with all turns to come.
pub fn run_wide(alloc: Global, plan: &WidePlan, turns: u32) -> Result<u128, NoMemory>
    requires valid { IsSide plan.now.side.now }
    requires plan { IsWidePlan plan.now }
    requires scale { IsScale plan.now.side.now.game.now turns (2 ^ 86) plan.now.scale }
    ensures { IfOk result (IsCell plan.now.side.now (wide_grain plan.now.side.now plan.now.scale) turns plan.now.side.now.own.now.start plan.now.side.now.other.now.start) }
{
    let rows = plan.own_weights.len();
    let width = plan.other_weights.len();
    let mut layer = no_cells(alloc, rows, width)?;
    let mut if_c = no_cells(alloc, plan.after_c.forks.len(), width)?;
    let mut if_d = no_cells(alloc, plan.after_d.forks.len(), width)?;
    for n in 0..turns {
        fill_moved(&mut if_c, &layer, plan, &plan.after_c, Move::C, n, turns);
        fill_moved(&mut if_d, &layer, plan, &plan.after_d, Move::D, n, turns);
        fill_layer(&mut layer, &if_c, &if_d, plan, n, turns);
    }
    let own = plan.side.own;
    let other = plan.side.other;
    Ok(layer[own.start as usize][other.start as usize])
}
