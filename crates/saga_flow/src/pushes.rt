//! The bottleneck of a path, and the amounts after an augmentation.
ghost use Rattle.std.specs.Prelude.{◌≡◌, ◌<◌, ◌≤◌, ◌+◌, ◌^◌, ℕ, All, length, slice_index};
ghost use Rattle.saga_flow.specs.Residual.{Carries, HasRoom};
ghost use Rattle.saga_flow.specs.Rounds.{pushed, shifted};
ghost use Rattle.saga_flow.specs.Pushes.{CanShift, IsPush, NoArcTwice};

use crate::nets::{Arc, Cap};
use crate::residual_arcs::ResidualArc;

/// More than the residual capacity of any bounded arc.
const ENDLESS: u64 = 1 << 63;

/// Augments along a path by the maximum amount that it carries, and returns this amount.
///
/// (Ford and Fulkerson's augmentation.)
pub fn push_most(arcs: &[Arc], path: &[ResidualArc], on: &mut [u64]) -> u64
    requires sized { length on.old ≡ length arcs.now }
    requires carries { All (Carries arcs.now on.old 1) path.now }
    requires once { NoArcTwice path.now }
    requires fits { (more : ℕ) → All (Carries arcs.now on.old more) path.now → (k : ℕ)
        → slice_index on.old k + more < 2 ^ 63 }
    ensures { IsPush arcs.now on.old path.now result on.new }
{
    let more = most_along(arcs, path, on);
    push(path, on, more);
    more
}

/// The maximum amount that a path carries, which is below 2^63.
fn most_along(arcs: &[Arc], path: &[ResidualArc], on: &[u64]) -> u64
    requires sized { length on.now ≡ length arcs.now }
    requires carries { All (Carries arcs.now on.now 1) path.now }
    ensures some { 0 < result }
    ensures carries { All (Carries arcs.now on.now result) path.now }
    ensures most { result < 2 ^ 63 → All (Carries arcs.now on.now (result + 1)) path.now → ⊥ }
{
    let mut least = ENDLESS;
    for residual in path {
        least = least.min(room(arcs, *residual, on));
    }
    least
}

/// The residual capacity of a residual arc. The value 2^63 means unbounded.
fn room(arcs: &[Arc], residual: ResidualArc, on: &[u64]) -> u64
    requires sized { length on.now ≡ length arcs.now }
    requires carries { Carries arcs.now on.now 1 residual }
    ensures some { 0 < result }
    ensures carries { Carries arcs.now on.now result residual }
    ensures most { result < 2 ^ 63 → Carries arcs.now on.now (result + 1) residual → ⊥ }
{
    let carried = on[residual.arc];
    if residual.forward {
        match arcs[residual.arc].cap {
            Cap::Of(most) => most - carried,
            Cap::Unbounded => ENDLESS,
        }
    } else {
        carried
    }
}

/// Sends an amount along each residual arc of a path.
pub fn push(path: &[ResidualArc], on: &mut [u64], more: u64)
    requires once { NoArcTwice path.now }
    requires fits { All (CanShift on.old more) path.now }
    ensures { on.new ≡ pushed on.old path.now more }
{
    for residual in path {
        shift(on, *residual, more);
    }
}

/// Sends an amount along one residual arc.
fn shift(on: &mut [u64], residual: ResidualArc, more: u64)
    requires { CanShift on.old more residual }
    ensures { on.new ≡ shifted on.old residual more }
{
    if residual.forward {
        on[residual.arc] += more;
    } else {
        on[residual.arc] -= more;
    }
}
