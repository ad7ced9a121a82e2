//! For each step, a row of bits: the steps to which residual arcs over needs lead from it.
//!
//! A search computes a layer as the union of the rows of the layer before, 64 steps at a time.
ghost use Rattle.std.specs.Prelude.{◌≡◌, ◌<◌, ◌≤◌, ◌+◌, ◌*◌, ℕ, [], IfOk, length, slice_index, slice_index_or};
ghost use Rattle.saga_closure.specs.Layers.{no_step};
ghost use Rattle.saga_closure.specs.Nets.{terms_in, arcs_in};
ghost use Rattle.saga_closure.specs.Rows.{AreRows, AreRowsOff, AreAdded, IsRow, IsUnion};

use crate::bits::{add_all, add_both, put};
use crate::links::links_from;
use crate::nets::{ClosureNet, Residual};
use saga_flow::ResidualArc;
use std::alloc::{AllocError, Global};

/// Rows of `width` words each.
#[derive(Drop)]
pub struct Rows {
    pub width: usize,
    pub words: Vec<u64>,
}

/// Adds steps to the row that starts at a bit.
fn add_steps(words: &mut [u64], at: usize, steps: &[u16])
    requires few { length words.old ≤ 16384 }
    requires within { (e : ℕ) → e < length steps.now
        → at + slice_index steps.now e < 64 * length words.old }
    ensures { AreAdded words.old at steps.now (length steps.now) words.new }
{
    for step in steps {
        put(words, at + *step as usize, true);
    }
}

/// The rows for amounts that are all zero.
fn empty_rows(alloc: Global, net: &ClosureNet) -> Result<Rows, AllocError>
    ensures { IfOk result (AreRows (terms_in net.now) []) }
{
    let count = net.definition.steps();
    let width = count.div_ceil(64);
    let mut words = vec![in alloc; 0u64; count * width]?;
    for v in 0..count {
        let (needed, _) = links_from(net.definition, v as u16, true);
        add_steps(words.as_mut_slice(), 64 * (v * width), needed);
    }
    Ok(Rows { width, words })
}

/// Adds the bits for the needs with a positive amount.
fn add_carrying(residual: &Residual, rows: &mut Rows)
    requires { AreRows (terms_in residual.now.net.now) [] rows.old }
    ensures { AreRows (terms_in residual.now.net.now) residual.now.on.now rows.new }
{
    let definition = residual.net.definition;
    let links = 2 * definition.steps();
    for k in 0..definition.needs() {
        if residual.on[links + k] > 0 {
            let need = definition.need(k);
            let place = 64 * (need.on as usize * rows.width) + need.step as usize;
            put(rows.words.as_mut_slice(), place, true);
        }
    }
}

/// The rows of a residual network.
pub fn rows_of(alloc: Global, residual: &Residual) -> Result<Rows, AllocError>
    ensures { IfOk result (AreRows (terms_in residual.now.net.now) residual.now.on.now) }
{
    let mut rows = empty_rows(alloc, residual.net)?;
    add_carrying(residual, &mut rows);
    Ok(rows)
}

/// The row of a step.
fn row_of(rows: &Rows, v: u16) -> &[u64]
    requires few { length rows.now.words.items ≤ 16384 }
    requires within { v * rows.now.width + rows.now.width ≤ length rows.now.words.items }
    ensures { IsRow rows.now v result.now }
{
    let first = v as usize * rows.width;
    &rows.words[first..first + rows.width]
}

/// The steps to which residual arcs lead from the steps of the list between two indices. Processes two rows at a time,
/// and overwrites `set`.
pub fn steps_after(rows: &Rows, order: &[u16], first: usize, end: usize, set: &mut [u64])
    requires first { first ≤ end }
    requires end { end ≤ length order.now }
    requires few { length rows.now.words.items ≤ 16384 }
    requires rows { (j : ℕ) → j < length order.now
        → slice_index order.now j * rows.now.width + rows.now.width
        ≤ length rows.now.words.items }
    requires sized { length set.old ≡ rows.now.width }
    ensures { IsUnion rows.now order.now first end set.new }
{
    set.fill(0);
    let mut next = first;
    while end - next > 1 {
        add_both(
            set,
            row_of(rows, order[next]),
            row_of(rows, order[next + 1]),
        );
        next += 2;
    }
    if next < end {
        add_all(set, row_of(rows, order[next]));
    }
}

/// Updates the bits of the needs on an augmented path.
pub fn put_right(net: &ClosureNet, path: &[ResidualArc], on: &[u64], rows: &mut Rows)
    requires sized { length on.now ≡ length (arcs_in net.now) }
    requires within { (j : ℕ) → j < length path.now
        → (slice_index_or path.now j no_step).arc < length (arcs_in net.now) }
    requires rows { AreRowsOff (terms_in net.now) on.now path.now 0 rows.old }
    ensures { AreRows (terms_in net.now) on.now rows.new }
{
    let links = 2 * net.definition.steps();
    for over in path {
        if over.arc >= links {
            let need = net.definition.need(over.arc - links);
            let place = 64 * (need.on as usize * rows.width) + need.step as usize;
            put(rows.words.as_mut_slice(), place, on[over.arc] > 0);
        }
    }
}
