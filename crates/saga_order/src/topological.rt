//! The steps in a topological order: each comes after all steps that it needs.
ghost use Rattle.std.specs.Prelude.{◌≡◌, ◌<◌, false, length, IfOk, OnOk, Contains};
ghost use Rattle.saga_order.specs.Shape.{shape_of};
ghost use Rattle.saga_order.specs.TopologicalOrder.{is_marked, AreAbove, HasVisited, IsTopological, IsTopologicalOrder};

use saga_def::Definition;
use std::alloc::{AllocError, Global};

/// Marks a step, visits all steps that it needs and that were not visited, and then adds the step to the order. The
/// recursion depth is at most the length of a chain of needs.
fn visit(
    definition: &Definition,
    visited: &mut [bool],
    order: &mut Vec<u16>,
    step: u16,
) -> Result<(), AllocError>
    requires sized { length visited.old ≡ length definition.now.steps }
    requires in_order { IsTopological (shape_of definition.now) order.old.items }
    requires within { step < length definition.now.steps }
    requires fresh { is_marked visited.old step ≡ false }
    requires above { AreAbove (shape_of definition.now) visited.old order.old.items step }
    ensures { OnOk result
        (HasVisited
        (shape_of definition.now) visited.old order.old.items step visited.new
        order.new.items) }
{
    visited[step as usize] = true;
    for on in definition.needs_of(step) {
        if !visited[*on as usize] {
            visit(definition, visited, order, *on)?;
        }
    }
    order.push(step)?;
    Ok(())
}

/// All steps, each after the steps that it needs. Takes time linear in the steps and needs.
pub fn topological_order(alloc: Global, definition: &Definition) -> Result<Vec<u16>, AllocError>
    ensures { IfOk result (λ order. IsTopologicalOrder (shape_of definition.now) order.items) }
{
    let count = definition.steps();
    let mut visited = vec![in alloc; false; count]?;
    let mut order = Vec::with_capacity(alloc, count)?;
    for step in 0..count {
        if !visited[step] {
            visit(definition, &mut visited, &mut order, step as u16)?;
        }
    }
    Ok(order)
}
