//! The lengths of the chains of needs that start at a step.
ghost use Rattle.std.specs.Prelude.{◌<◌, ◌≤◌, length, All, IfOk};
ghost use Rattle.saga_order.specs.TopologicalOrder.{IsTopologicalOrder};
ghost use Rattle.saga_order.specs.Rank.{AreRanks, IsNextRank};
ghost use Rattle.saga_order.specs.Shape.{shape_of};

use saga_def::Definition;
use std::alloc::{AllocError, Global};

/// One more than the maximum rank of the needed steps, or 0 if there are none.
fn next_rank(needed: &[u16], ranks: &[u16]) -> u16
    requires within { All (λ a. a < length ranks.now) needed.now }
    requires small { All (λ rank. rank < 65535) ranks.now }
    ensures { IsNextRank needed.now ranks.now result }
{
    let mut rank = 0u16;
    for on in needed {
        rank = rank.max(ranks[*on as usize] + 1);
    }
    rank
}

/// The rank of each step. Takes time linear in the steps and needs.
pub fn ranks_of(
    alloc: Global,
    definition: &Definition,
    order: &[u16],
) -> Result<Vec<u16>, AllocError>
    requires { IsTopologicalOrder (shape_of definition.now) order.now }
    ensures { IfOk result (λ ranks. AreRanks (shape_of definition.now) ranks.items) }
{
    let mut ranks = vec![in alloc; 0; definition.steps()]?;
    for step in order {
        ranks[*step as usize] = next_rank(definition.needs_of(*step), &ranks);
    }
    Ok(ranks)
}
