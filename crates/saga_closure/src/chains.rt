//! Chains of needs from a step that cannot be dropped to one that cannot be kept.
ghost use Rattle.std.specs.Prelude.{◌≡◌, ◌≢◌, ◌<◌, ◌^◌, ℕ, IfOk, IfNone, IfSome, false, slice_index};
ghost use Rattle.saga_case.specs.Right.{IsRightChain};
ghost use Rattle.saga_flow.specs.Reached.{HasUnbounded, Reaches};
ghost use Rattle.saga_closure.specs.Chains.{IsChainTo};
ghost use Rattle.saga_closure.specs.Layers.{IsAtGoal};
ghost use Rattle.saga_closure.specs.Nets.{terms_in, arcs_in};

use crate::capacities::{ENDLESS, endless_only};
use crate::nets::{ClosureNet, Residual};
use crate::paths::came_by;
use crate::rows::rows_of;
use crate::searching::{Found, Goal, search};
use std::alloc::{AllocError, Global};

/// A chain from a step whose cost to drop is never to one whose cost to keep is never. Returns `None` if no path of
/// unbounded arcs leads from the source to the sink.
pub fn unbounded_chain(alloc: Global, net: &ClosureNet) -> Result<Option<Vec<u16>>, AllocError>
    ensures some { IfOk result
        (λ chain. IfSome chain (λ steps. IsRightChain (terms_in net.now) steps.items)) }
    ensures none { IfOk result
        (λ chain. IfNone chain (Reaches (HasUnbounded (arcs_in net.now)) 0 1 → ⊥)) }
{
    if !has_forced(net) {
        return Ok(None);
    }
    let caps = endless_only(alloc, net.caps)?;
    let arcs = 2 * net.definition.steps() + net.definition.needs();
    let on = vec![in alloc; 0u64; arcs]?;
    let only = ClosureNet {
        definition: net.definition,
        caps: caps.as_slice(),
    };
    let residual = Residual {
        net: &only,
        on: on.as_slice(),
    };
    let rows = rows_of(alloc, &residual)?;
    let (found, goal) = search(alloc, &residual, &rows)?;
    match goal {
        None => Ok(None),
        Some(goal) => Ok(Some(chain_to(alloc, &residual, &found, goal)?)),
    }
}

/// Whether the cost to drop some step is never.
fn has_forced(net: &ClosureNet) -> bool
    ensures { result ≡ false → (s : ℕ) → s < (terms_in net.now).count
        → slice_index net.now.caps.now s ≢ 2 ^ 63 }
{
    for v in 0..net.definition.steps() {
        if net.caps[v] == ENDLESS {
            return true;
        }
    }
    false
}

/// The steps of the path by which a search with zero amounts reached its goal.
fn chain_to(
    alloc: Global,
    residual: &Residual,
    found: &Found,
    goal: Goal,
) -> Result<Vec<u16>, AllocError>
    requires at { IsAtGoal (terms_in residual.now.net.now) residual.now.on.now found.now goal }
    requires empty { (k : ℕ) → slice_index residual.now.on.now k ≡ 0 }
    ensures { IfOk result
        (λ chain. IsChainTo
        (terms_in residual.now.net.now) residual.now.on.now goal.step chain.items) }
{
    let mut chain = Vec::new(alloc);
    let mut v = goal.step;
    chain.push(v)?;
    while found.level[v as usize] > 0 {
        v = came_by(residual, found, goal, v).from;
        chain.push(v)?;
    }
    chain.reverse();
    Ok(chain)
}
