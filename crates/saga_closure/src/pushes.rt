//! The bottleneck of a path, the amounts after an augmentation, and rounds.
ghost use Rattle.std.specs.Prelude.{◌≡◌, ◌<◌, ◌≤◌, ◌+◌, ◌^◌, ℕ, All, length, slice_index};
ghost use Rattle.saga_flow.specs.Residual.{Carries};
ghost use Rattle.saga_flow.specs.Pushes.{IsPush, NoArcTwice};
ghost use Rattle.saga_flow.specs.Progress.{AddsRound};
ghost use Rattle.saga_closure.specs.Nets.{arcs_in};

use crate::capacities::ENDLESS;
use crate::nets::{ClosureNet, Residual};
use crate::rooms::room;
use saga_flow::{Progress, ResidualArc, push};

/// One round: augments along a path by the maximum amount that it carries.
pub fn augment(net: &ClosureNet, path: &[ResidualArc], progress: &mut Progress)
    requires sized { length progress.old.on.items ≡ length (arcs_in net.now) }
    requires carries { All (Carries (arcs_in net.now) progress.old.on.items 1) path.now }
    requires once { NoArcTwice path.now }
    requires limit { (k : ℕ) → slice_index progress.old.on.items k ≤ progress.old.value }
    requires fits { (more : ℕ) → All (Carries (arcs_in net.now) progress.old.on.items more) path.now
        → progress.old.value + more < 2 ^ 63 }
    requires few { progress.old.rounds ≤ progress.old.value }
    ensures { AddsRound (arcs_in net.now) path.now progress.old progress.new }
{
    progress.value += push_most(net, path, progress.on.as_mut_slice());
    progress.rounds += 1;
}

/// Augments along a path by the maximum amount that it carries, and returns this amount.
fn push_most(net: &ClosureNet, path: &[ResidualArc], on: &mut [u64]) -> u64
    requires sized { length on.old ≡ length (arcs_in net.now) }
    requires carries { All (Carries (arcs_in net.now) on.old 1) path.now }
    requires once { NoArcTwice path.now }
    requires fits { (more : ℕ) → All (Carries (arcs_in net.now) on.old more) path.now → (k : ℕ)
        → slice_index on.old k + more < 2 ^ 63 }
    ensures { IsPush (arcs_in net.now) on.old path.now result on.new }
{
    let more = most_along(&Residual { net: &*net, on }, path);
    push(path, on, more);
    more
}

/// The maximum amount that a path carries, which is below 2^63.
fn most_along(residual: &Residual, path: &[ResidualArc]) -> u64
    requires carries { All (Carries (arcs_in residual.now.net.now) residual.now.on.now 1) path.now }
    ensures some { 0 < result }
    ensures carries { All
        (Carries (arcs_in residual.now.net.now) residual.now.on.now result) path.now }
    ensures most { result < 2 ^ 63
        → All (Carries (arcs_in residual.now.net.now) residual.now.on.now (result + 1)) path.now
        → ⊥ }
{
    let mut least = ENDLESS;
    for over in path {
        least = least.min(room(residual, *over));
    }
    least
}
