//! Phases: a search, its path, and more paths of the same length.
ghost use Rattle.std.specs.Prelude.{◌≡◌, ◌<◌, ◌≤◌, ◌+◌, ◌^◌, ℕ, All, OnOk, length, vec_len, slice_index};
ghost use Rattle.saga_flow.specs.Network.{IsNetwork};
ghost use Rattle.saga_flow.specs.Reached.{HasUnbounded, Reaches};
ghost use Rattle.saga_flow.specs.Residual.{Carries};
ghost use Rattle.saga_flow.specs.Pushes.{NoArcTwice};
ghost use Rattle.saga_flow.specs.Progress.{AddsRound};
ghost use Rattle.saga_flow.specs.Levels.{IsLevelled};
ghost use Rattle.saga_closure.specs.CaseNet.{network_of};
ghost use Rattle.saga_closure.specs.Layers.{IsAtGoal, node_level};
ghost use Rattle.saga_closure.specs.Nets.{terms_in, arcs_in};
ghost use Rattle.saga_closure.specs.Largest.{IsOnTheWay};
ghost use Rattle.saga_closure.specs.Links.{IsThinned};
ghost use Rattle.saga_closure.specs.Rows.{AreRows};

use crate::nets::{ClosureNet, Residual};
use crate::paths::path_to;
use crate::pushes::augment;
use crate::rows::{Rows, put_right};
use crate::searching::{Found, Goal};
use crate::walking::{ALL, put_back, walk_back};
use saga_flow::{Progress, ResidualArc};
use std::alloc::{AllocError, Global};

/// One round along a path. Updates the rows.
fn send_along(net: &ClosureNet, path: &[ResidualArc], progress: &mut Progress, rows: &mut Rows)
    requires sized { length progress.old.on.items ≡ length (arcs_in net.now) }
    requires carries { All (Carries (arcs_in net.now) progress.old.on.items 1) path.now }
    requires once { NoArcTwice path.now }
    requires limit { (k : ℕ) → slice_index progress.old.on.items k ≤ progress.old.value }
    requires fits { (more : ℕ) → All (Carries (arcs_in net.now) progress.old.on.items more) path.now
        → progress.old.value + more < 2 ^ 63 }
    requires few { progress.old.rounds ≤ progress.old.value }
    requires rows { AreRows (terms_in net.now) progress.old.on.items rows.old }
    ensures round { AddsRound (arcs_in net.now) path.now progress.old progress.new }
    ensures rows { AreRows (terms_in net.now) progress.new.on.items rows.new }
{
    augment(net, path, progress);
    put_right(net, path, progress.on.as_slice(), rows);
}

/// Augments along each path over a step to the sink that a walk finds, in which each arc increases the level by one.
fn send_to(
    net: &ClosureNet,
    level: &[u16],
    depth: u16,
    goal: u16,
    alive: &mut Vec<u16>,
    left: &mut Vec<usize>,
    path: &mut Vec<ResidualArc>,
    progress: &mut Progress,
    rows: &mut Rows,
) -> Result<(), AllocError>
    requires network { IsNetwork (network_of (terms_in net.now)) }
    requires apart { Reaches (HasUnbounded (arcs_in net.now)) 0 1 → ⊥ }
    requires level { length level.now ≡ (terms_in net.now).count }
    requires goal { goal < (terms_in net.now).count }
    requires last { slice_index level.now goal ≡ depth }
    requires low { depth ≤ (terms_in net.now).count }
    requires alive { vec_len alive.old ≡ (terms_in net.now).count }
    requires thinned { IsThinned level.now alive.old.items }
    requires left { vec_len left.old ≡ (terms_in net.now).count }
    requires levelled { IsLevelled (arcs_in net.now) progress.old.on.items
        (node_level depth level.now) }
    requires progress { IsOnTheWay (terms_in net.now) progress.old }
    requires rows { AreRows (terms_in net.now) progress.old.on.items rows.old }
    requires small { progress.old.value < 2 ^ 63 }
    ensures alive { OnOk result (vec_len alive.new ≡ (terms_in net.now).count) }
    ensures thinned { OnOk result (IsThinned level.now alive.new.items) }
    ensures left { OnOk result (vec_len left.new ≡ (terms_in net.now).count) }
    ensures levelled { OnOk result
        (IsLevelled (arcs_in net.now) progress.new.on.items (node_level depth level.now)) }
    ensures progress { OnOk result (IsOnTheWay (terms_in net.now) progress.new) }
    ensures rows { OnOk result (AreRows (terms_in net.now) progress.new.on.items rows.new) }
    ensures small { OnOk result (progress.new.value < 2 ^ 63) }
    ensures more { OnOk result (progress.old.value ≤ progress.new.value) }
{
    while walk_back(
        &Residual {
            net: &*net,
            on: progress.on.as_slice(),
        },
        level,
        depth,
        goal,
        alive,
        left,
        path,
    )? {
        send_along(net, path.as_slice(), progress, rows);
        put_back(net, path.as_slice(), left.as_mut_slice());
    }
    Ok(())
}

/// Augments along the search's path, and along each further path of the same length that is found.
pub fn run_phase(
    alloc: Global,
    net: &ClosureNet,
    found: &Found,
    goal: Goal,
    progress: &mut Progress,
    rows: &mut Rows,
) -> Result<(), AllocError>
    requires network { IsNetwork (network_of (terms_in net.now)) }
    requires apart { Reaches (HasUnbounded (arcs_in net.now)) 0 1 → ⊥ }
    requires at { IsAtGoal (terms_in net.now) progress.old.on.items found.now goal }
    requires progress { IsOnTheWay (terms_in net.now) progress.old }
    requires rows { AreRows (terms_in net.now) progress.old.on.items rows.old }
    ensures progress { OnOk result (IsOnTheWay (terms_in net.now) progress.new) }
    ensures rows { OnOk result (AreRows (terms_in net.now) progress.new.on.items rows.new) }
    ensures small { OnOk result (progress.new.value < 2 ^ 63) }
    ensures more { OnOk result (progress.old.value < progress.new.value) }
{
    let mut path = Vec::new(alloc);
    let residual = Residual {
        net: &*net,
        on: progress.on.as_slice(),
    };
    path_to(&residual, found, goal, &mut path)?;
    send_along(net, path.as_slice(), progress, rows);
    let mut alive = found.level.to_vec(alloc)?;
    let mut left = vec![in alloc; ALL; net.definition.steps()]?;
    for j in goal.first..found.order.len() {
        let to = found.order[j];
        send_to(
            net,
            &found.level,
            goal.depth,
            to,
            &mut alive,
            &mut left,
            &mut path,
            progress,
            rows,
        )?;
    }
    Ok(())
}
