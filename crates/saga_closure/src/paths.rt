//! The path of a search.
ghost use Rattle.std.specs.Prelude.{◌≡◌, ◌<◌, ◌≤◌, ◌+◌, ◌*◌, OnOk, length, slice_index};
ghost use Rattle.saga_flow.specs.Residual.{IsOpen};
ghost use Rattle.saga_closure.specs.Layers.{IsAtGoal};
ghost use Rattle.saga_closure.specs.Found.{IsClimb};
ghost use Rattle.saga_closure.specs.Nets.{terms_in, arcs_in};
ghost use Rattle.saga_closure.specs.Paths.{tail_of, head_of};

use crate::nets::{ClosureNet, Residual};
use crate::searching::{Found, Goal};
use crate::walking::{ALL, Back, step_before};
use saga_flow::ResidualArc;
use std::alloc::AllocError;

/// The steps that the residual arc of a need joins: its tail and its head.
pub fn ends(net: &ClosureNet, over: ResidualArc) -> (u16, u16)
    requires far { 2 * (terms_in net.now).count ≤ over.arc }
    requires inside { over.arc
        < (terms_in net.now).count + ((terms_in net.now).count + length (terms_in net.now).needs) }
    ensures tail { result.0 ≡ tail_of (terms_in net.now) over }
    ensures tail_inside { result.0 < (terms_in net.now).count }
    ensures head { result.1 ≡ head_of (terms_in net.now) over }
    ensures head_inside { result.1 < (terms_in net.now).count }
{
    let need = net.definition.need(over.arc - 2 * net.definition.steps());
    let (step, on) = (need.step as u16, need.on as u16);
    if over.forward { (step, on) } else { (on, step) }
}

/// A residual arc by which a search can reach a step above the lowest level.
pub fn came_by(residual: &Residual, found: &Found, goal: Goal, v: u16) -> Back
    requires at { IsAtGoal (terms_in residual.now.net.now) residual.now.on.now found.now goal }
    requires inside { v < (terms_in residual.now.net.now).count }
    requires above { 0 < slice_index found.now.level.items v }
    requires low { slice_index found.now.level.items v ≤ goal.depth }
    ensures inside { result.from < (terms_in residual.now.net.now).count }
    ensures opened { IsOpen (arcs_in residual.now.net.now) residual.now.on.now result.by
        (2 + result.from) (2 + v) }
    ensures lower { slice_index found.now.level.items v
        ≡ slice_index found.now.level.items result.from + 1 }
{
    match step_before(residual, found.level[v as usize], &found.level, v, ALL) {
        Some(back) => back,
        None => unreachable!(),
    }
}

/// The path by which a search reached its goal, extended to the sink.
pub fn path_to(
    residual: &Residual,
    found: &Found,
    goal: Goal,
    path: &mut Vec<ResidualArc>,
) -> Result<(), AllocError>
    requires { IsAtGoal (terms_in residual.now.net.now) residual.now.on.now found.now goal }
    ensures { OnOk result (IsClimb residual.now goal.depth found.now.level.items path.new.items) }
{
    path.clear();
    let count = residual.net.definition.steps();
    path.push(ResidualArc {
        arc: count + goal.step as usize,
        forward: true,
    })?;
    let mut v = goal.step;
    while found.level[v as usize] > 0 {
        let back = came_by(residual, found, goal, v);
        path.push(back.by)?;
        v = back.from;
    }
    path.push(ResidualArc {
        arc: v as usize,
        forward: true,
    })?;
    path.reverse();
    Ok(())
}
