//! The search from the source, layer by layer.
ghost use Rattle.std.specs.Prelude.{◌≡◌, ◌≢◌, ◌<◌, ◌≤◌, ◌+◌, ◌-◌, ◌*◌, ℕ, true, IfOk, IfSome, IfNone, OnOk, length, slice_index};
ghost use Rattle.saga_closure.specs.Nets.{terms_in};
ghost use Rattle.saga_closure.specs.Layers.{IsLabelled, AreLabelled, IsAtGoal, IsReach};
ghost use Rattle.saga_closure.specs.Bits.{holds, holds_bit};
ghost use Rattle.saga_closure.specs.Found.{IsStarted};
ghost use Rattle.saga_closure.specs.Outs.{IsOut, AreDry};
ghost use Rattle.saga_closure.specs.Rows.{AreRows};

use crate::bits::{put, put_bit, without};
use crate::nets::Residual;
use crate::rooms::room_along;
use crate::rows::{Rows, steps_after};
use std::alloc::{AllocError, Global};

/// The value for a step that is not reached.
pub const NONE: u16 = 65535;

/// The result of a search: the level of each step, the set of the steps with a level, and these steps in order.
#[derive(Drop)]
pub struct Found {
    pub level: Vec<u16>,
    pub labelled: Vec<u64>,
    pub order: Vec<u16>,
}

/// Sets the level of a step.
fn label(found: &mut Found, v: u16, level: u16) -> Result<(), AllocError>
    requires level { v < length found.old.level.items }
    requires labelled { v < 64 * length found.old.labelled.items }
    ensures { OnOk result (IsLabelled found.old found.new v level) }
{
    found.level[v as usize] = level;
    put(found.labelled.as_mut_slice(), v as usize, true);
    found.order.push(v)?;
    Ok(())
}

/// The first step of the order, from index `first` on, with residual capacity to the sink.
fn find_goal(residual: &Residual, order: &[u16], first: usize) -> Option<u16>
    requires { (j : ℕ) → j < length order.now
        → slice_index order.now j < (terms_in residual.now.net.now).count }
    ensures some { IfSome result (IsOut residual.now order.now first) }
    ensures none { IfNone result (AreDry residual.now order.now first (length order.now)) }
{
    let count = residual.net.definition.steps();
    for j in first..order.len() {
        let v = order[j];
        if room_along(residual, count + v as usize) > 0 {
            return Some(v);
        }
    }
    None
}

/// The steps to which the source has residual capacity.
pub fn start(alloc: Global, residual: &Residual) -> Result<Found, AllocError>
    ensures { IfOk result (IsStarted residual.now) }
{
    let count = residual.net.definition.steps();
    let mut found = Found {
        level: vec![in alloc; NONE; count]?,
        labelled: vec![in alloc; 0u64; count.div_ceil(64)]?,
        order: Vec::with_capacity(alloc, count)?,
    };
    for v in 0..count {
        if room_along(residual, v) > 0 {
            label(&mut found, v as u16, 0)?;
        }
    }
    Ok(found)
}

/// Sets the level of those steps of a word that have none. The first bit of the word is the step `at`.
fn label_word(found: &mut Found, at: usize, word: u64, level: u16) -> Result<(), AllocError>
    requires low { level < 65535 }
    requires level { (b : ℕ) → b < 64 → holds_bit word b ≡ true
        → at + b < length found.old.level.items }
    requires wide { length found.old.level.items ≤ 64 * length found.old.labelled.items }
    requires few { length found.old.level.items ≤ 1024 }
    ensures labelled { OnOk result
        (AreLabelled (λ u. (at ≤ u) × (u < at + 64) × (holds_bit word (u - at) ≡ true))
        level found.old found.new) }
    ensures all { OnOk result
        ((b : ℕ) → b < 64 → holds_bit word b ≡ true
        → slice_index found.new.level.items (at + b) ≢ 65535) }
{
    let mut rest = word;
    while rest != 0 {
        let b = rest.trailing_zeros() as usize;
        rest = put_bit(rest, b, false);
        let u = (at + b) as u16;
        if found.level[u as usize] == NONE {
            label(found, u, level)?;
        }
    }
    Ok(())
}

/// Sets the level of those steps of a set that have none.
fn label_all(found: &mut Found, set: &[u64], level: u16) -> Result<(), AllocError>
    requires low { level < 65535 }
    requires level { (u : ℕ) → u < 64 * length set.now → holds set.now u ≡ true
        → u < length found.old.level.items }
    requires same { length set.now ≡ length found.old.labelled.items }
    requires narrow { length set.now ≤ 16 }
    requires wide { length found.old.level.items ≤ 64 * length found.old.labelled.items }
    requires few { length found.old.level.items ≤ 1024 }
    requires marked { (u : ℕ) → u < length found.old.level.items
        → holds found.old.labelled.items u ≡ true
        → slice_index found.old.level.items u ≢ 65535 }
    ensures labelled { OnOk result
        (AreLabelled (λ u. holds set.now u ≡ true) level found.old found.new) }
    ensures all { OnOk result
        ((u : ℕ) → u < 64 * length set.now → holds set.now u ≡ true
        → slice_index found.new.level.items u ≢ 65535) }
{
    for place in 0..set.len() {
        let word = without(set[place], found.labelled[place]);
        label_word(found, 64 * place, word, level)?;
    }
    Ok(())
}

/// The end of a search: a layer of the order, with its level and its first step that has residual capacity to the sink.
#[derive(Clone, Copy)]
pub struct Goal {
    pub first: usize,
    pub depth: u16,
    pub step: u16,
}

/// Searches from the source, layer by layer, to the first layer with residual capacity to the sink.
pub fn search(
    alloc: Global,
    residual: &Residual,
    rows: &Rows,
) -> Result<(Found, Option<Goal>), AllocError>
    requires { AreRows (terms_in residual.now.net.now) residual.now.on.now rows.now }
    ensures goal { IfOk result
        (λ r. IfSome r.1
        (λ g. IsAtGoal (terms_in residual.now.net.now) residual.now.on.now r.0 g)) }
    ensures none { IfOk result
        (λ r. IfNone r.1 (IsReach (terms_in residual.now.net.now) residual.now.on.now r.0)) }
{
    let mut found = start(alloc, residual)?;
    let mut next = vec![in alloc; 0u64; rows.width]?;
    let mut first = 0;
    let mut depth = 0;
    while first < found.order.len() {
        let end = found.order.len();
        if let Some(step) = find_goal(residual, &found.order, first) {
            return Ok((found, Some(Goal { first, depth, step })));
        }
        steps_after(rows, &found.order, first, end, &mut next);
        depth += 1;
        label_all(&mut found, &next, depth)?;
        first = end;
    }
    Ok((found, None))
}
