//! Rounds: an augmentation along a path, with the update of the flow's value and of the number of rounds.
ghost use Rattle.std.specs.Prelude.{◌≡◌, ◌<◌, ◌≤◌, ◌+◌, ◌^◌, ℕ, All, length, slice_index};
ghost use Rattle.saga_flow.specs.Residual.{Carries};
ghost use Rattle.saga_flow.specs.Pushes.{NoArcTwice};
ghost use Rattle.saga_flow.specs.Progress.{AddsRound};

use crate::nets::Arc;
use crate::pushes::push_most;
use crate::residual_arcs::ResidualArc;

/// The current amounts, one for each arc, their value, and the number of rounds that lead to them.
#[derive(Drop)]
pub struct Progress {
    pub on: Vec<u64>,
    pub value: u64,
    pub rounds: u64,
}

/// One round: augments along a path by the maximum amount that it carries.
pub fn augment(arcs: &[Arc], path: &[ResidualArc], progress: &mut Progress)
    requires sized { length progress.old.on.items ≡ length arcs.now }
    requires carries { All (Carries arcs.now progress.old.on.items 1) path.now }
    requires once { NoArcTwice path.now }
    requires limit { (k : ℕ) → slice_index progress.old.on.items k ≤ progress.old.value }
    requires fits { (more : ℕ) → All (Carries arcs.now progress.old.on.items more) path.now
        → progress.old.value + more < 2 ^ 63 }
    requires few { progress.old.rounds ≤ progress.old.value }
    ensures { AddsRound arcs.now path.now progress.old progress.new }
{
    progress.value += push_most(arcs, path, progress.on.as_mut_slice());
    progress.rounds += 1;
}
