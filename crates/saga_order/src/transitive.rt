//! The transitive closure of the needs: for each step the set of all steps that precede it.
ghost use Rattle.std.specs.Prelude.{◌≡◌, ◌<◌, ◌≤◌, [], length, All, IfOk, replicate};
ghost use Rattle.saga_order.specs.TopologicalOrder.{IsTopologicalOrder};
ghost use Rattle.saga_order.specs.Shape.{shape_of};
ghost use Rattle.saga_order.specs.TransitiveClosure.{AreNarrow, IsTransitiveClosure, ArePrecedingOver};

use crate::step_sets::StepSet;
use saga_def::Definition;
use std::alloc::{AllocError, Global};

/// This number of empty sets. They take no memory of their own.
fn empty_sets(alloc: Global, count: usize) -> Result<Vec<StepSet>, AllocError>
    ensures { IfOk result (λ sets. sets.items ≡ replicate count []) }
{
    let mut sets = Vec::with_capacity(alloc, count)?;
    for _ in 0..count {
        sets.push(StepSet::new(alloc))?;
    }
    Ok(sets)
}

/// The needed steps, and all steps that precede them.
fn preceding_over(alloc: Global, needed: &[u16], closure: &[StepSet]) -> Result<StepSet, AllocError>
    requires within { All (λ a. a < length closure.now) needed.now }
    requires narrow { AreNarrow closure.now }
    ensures { IfOk result (λ preceding. ArePrecedingOver needed.now closure.now preceding) }
{
    let mut preceding = StepSet::with_room(alloc, closure.len())?;
    for on in needed {
        preceding.insert(*on);
        preceding.add_all(&closure[*on as usize]);
    }
    Ok(preceding)
}

/// For each step the set of all steps that precede it. Takes at most time proportional to the number of steps times the
/// number of steps and needs, divided by the 64 bits of a word.
pub fn transitive_closure(
    alloc: Global,
    definition: &Definition,
    order: &[u16],
) -> Result<Vec<StepSet>, AllocError>
    requires { IsTopologicalOrder (shape_of definition.now) order.now }
    ensures { IfOk result (λ closure. IsTransitiveClosure (shape_of definition.now) closure.items) }
{
    let mut closure = empty_sets(alloc, definition.steps())?;
    for step in order {
        let preceding = preceding_over(alloc, definition.needs_of(*step), &closure)?;
        closure[*step as usize] = preceding;
    }
    Ok(closure)
}
