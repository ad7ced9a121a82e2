//! More paths of the same length: walks back from a step that decrease the level by one at each step.
ghost use Rattle.std.specs.Prelude.{Bool, ◌≡◌, ◌<◌, ◌≤◌, ◌+◌, ◌-◌, ◌*◌, ◌^◌, ◌↔◌, All, IfOk, IfNone, IfSome, IsTrue, length, vec_len, slice_index, slice_set};
ghost use Rattle.saga_flow.specs.Residual.{IsOpen};
ghost use Rattle.saga_closure.specs.Found.{IsClimb};
ghost use Rattle.saga_closure.specs.Links.{IsThinned, NoneBefore};
ghost use Rattle.saga_closure.specs.Nets.{terms_in, arcs_in};

use crate::links::{lets_through, links_from};
use crate::nets::{ClosureNet, Residual};
use crate::paths::ends;
use crate::rooms::room_along;
use crate::searching::NONE;
use saga_flow::ResidualArc;
use std::alloc::AllocError;

/// The initial number of untried neighbors of a step.
pub const ALL: usize = usize::MAX;

/// A residual arc from a step one level lower, and the number of entries that are not yet tried.
#[derive(Clone, Copy)]
pub struct Back {
    pub left: usize,
    pub from: u16,
    pub by: ResidualArc,
}

/// Whether a level is one less than another.
fn is_just_below(level: u16, far: u16) -> bool
    ensures { IsTrue result ↔ (far ≡ level + 1) }
{
    level < far && far - level == 1
}

/// Removes the level of a step in `alive`, because no walk can pass it any more.
fn give_up(alive: &mut Vec<u16>, v: u16)
    requires { v < vec_len alive.old }
    ensures items { alive.new.items ≡ slice_set alive.old.items v 65535 }
    ensures len { vec_len alive.new ≡ vec_len alive.old }
{
    alive[v as usize] = NONE;
}

/// Searches the last `many` of the steps from which a residual arc of a direction may lead to `v`, for one that is one
/// level below `far`. With `forward` these steps need `v`, and otherwise `v` needs them.
fn link_before(
    residual: &Residual,
    far: u16,
    alive: &[u16],
    v: u16,
    many: usize,
    forward: bool,
) -> Option<Back>
    requires alive { length alive.now ≡ (terms_in residual.now.net.now).count }
    requires inside { v < (terms_in residual.now.net.now).count }
    ensures before { IfSome result (λ b. b.left < many) }
    ensures inside { IfSome result (λ b. b.from < (terms_in residual.now.net.now).count) }
    ensures opened { IfSome result
        (λ b. IsOpen (arcs_in residual.now.net.now) residual.now.on.now b.by (2 + b.from) (2 + v)) }
    ensures lower { IfSome result
        (λ b. far ≡ slice_index alive.now b.from + 1) }
    ensures none { 2 ^ 63 ≤ many
        → IfNone result (NoneBefore residual.now far alive.now forward v) }
{
    let definition = residual.net.definition;
    let links = 2 * definition.steps();
    let (steps, places) = links_from(definition, v, !forward);
    let many = many.min(steps.len());
    for e in steps.len() - many..steps.len() {
        let u = steps[e];
        let by = ResidualArc {
            arc: links + places[e] as usize,
            forward,
        };
        if is_just_below(alive[u as usize], far) && lets_through(residual, by) {
            return Some(Back {
                left: steps.len() - e - 1,
                from: u,
                by,
            });
        }
    }
    None
}

/// Searches the last `many` neighbors of `v` for one that is one level below `far`. First come the steps that need `v`,
/// then the steps that `v` needs.
pub fn step_before(
    residual: &Residual,
    far: u16,
    alive: &[u16],
    v: u16,
    many: usize,
) -> Option<Back>
    requires alive { length alive.now ≡ (terms_in residual.now.net.now).count }
    requires inside { v < (terms_in residual.now.net.now).count }
    ensures before { IfSome result (λ b. b.left < many) }
    ensures inside { IfSome result (λ b. b.from < (terms_in residual.now.net.now).count) }
    ensures opened { IfSome result
        (λ b. IsOpen (arcs_in residual.now.net.now) residual.now.on.now b.by (2 + b.from) (2 + v)) }
    ensures lower { IfSome result
        (λ b. far ≡ slice_index alive.now b.from + 1) }
    ensures none { 2 ^ 64 - 1 ≤ many → IfNone result
        ((forward : Bool) → NoneBefore residual.now far alive.now forward v) }
{
    if far == 0 {
        return None;
    }
    let needs = residual.net.definition.needs_of(v).len();
    if many > needs {
        if let Some(back) = link_before(residual, far, alive, v, many - needs, true) {
            return Some(Back {
                left: back.left + needs,
                from: back.from,
                by: back.by,
            });
        }
    }
    link_before(residual, far, alive, v, many, false)
}

/// Searches for a path of residual arcs from the source over `goal` to the sink in which each arc increases the level
/// by one.
///
/// `alive` has the levels of the steps that walks may still pass, and `left` the number of untried neighbors of each
/// step. `path` is overwritten.
pub fn walk_back(
    residual: &Residual,
    level: &[u16],
    depth: u16,
    goal: u16,
    alive: &mut Vec<u16>,
    left: &mut Vec<usize>,
    path: &mut Vec<ResidualArc>,
) -> Result<bool, AllocError>
    requires level { length level.now ≡ (terms_in residual.now.net.now).count }
    requires goal { goal < (terms_in residual.now.net.now).count }
    requires last { slice_index level.now goal ≡ depth }
    requires low { depth ≤ (terms_in residual.now.net.now).count }
    requires alive { vec_len alive.old ≡ (terms_in residual.now.net.now).count }
    requires thinned { IsThinned level.now alive.old.items }
    requires left { vec_len left.old ≡ (terms_in residual.now.net.now).count }
    ensures alive { vec_len alive.new ≡ vec_len alive.old }
    ensures thinned { IsThinned level.now alive.new.items }
    ensures left { vec_len left.new ≡ vec_len left.old }
    ensures found { IfOk result
        (λ found. IsTrue found → IsClimb residual.now depth level.now path.new.items) }
{
    path.clear();
    let count = residual.net.definition.steps();
    if room_along(residual, count + goal as usize) == 0 {
        return Ok(false);
    }
    path.push(ResidualArc {
        arc: count + goal as usize,
        forward: true,
    })?;
    let mut v = goal;
    while level[v as usize] > 0 || room_along(residual, v as usize) == 0 {
        match step_before(
            residual,
            level[v as usize],
            alive.as_slice(),
            v,
            left[v as usize],
        ) {
            Some(back) => {
                left[v as usize] = back.left;
                path.push(back.by)?;
                v = back.from;
            }
            None => {
                give_up(alive, v);
                match path.pop() {
                    None => return Ok(false),
                    Some(over) => {
                        if over.arc < 2 * count {
                            return Ok(false);
                        }
                        v = ends(residual.net, over).1;
                    }
                }
            }
        }
    }
    path.push(ResidualArc {
        arc: v as usize,
        forward: true,
    })?;
    path.reverse();
    Ok(true)
}

/// After an augmentation, the arcs of its path become untried again.
pub fn put_back(net: &ClosureNet, path: &[ResidualArc], left: &mut [usize])
    requires left { length left.old ≡ (terms_in net.now).count }
    requires steps { All (λ s. s.arc < length (arcs_in net.now)) path.now }
{
    let links = 2 * net.definition.steps();
    for over in path {
        if over.arc >= links {
            let untried = &mut left[ends(net, *over).1 as usize];
            *untried = untried.saturating_add(1);
        }
    }
}
