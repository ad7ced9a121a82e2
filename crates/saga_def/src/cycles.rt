//! The search for a cycle of needs (Kahn 1962).
//!
//! For each step it counts the needs on steps that are not marked. A step with count 0 is marked, and the counts of the
//! steps that need it are decreased. When no step can be marked, either all steps are marked, or each unmarked step
//! needs another unmarked step. In the second case, a walk along these needs visits some step twice.
ghost use Rattle.std.specs.Prelude.{ℕ, slice_index, ◌≡◌, ◌≤◌, ◌<◌, All, length, IfOk, IfSome, IfNone, IsSome, drop, slice_index_or, None};
ghost use Rattle.saga_def.specs.Order.{IsAcyclic, IsCycle};
ghost use Rattle.saga_def.specs.Rules.{AreKnown};
ghost use Rattle.saga_def.specs.Peeling.{AreBlockers, AreFree, AreLowered, IsPeeled, LeadsOn, IsRing, demand, occurs};
ghost use Rattle.saga_def.specs.Adjacency.{ListsDependants};

use crate::adjacency::{AdjacencyList, entries_at};
use crate::limits::{MAX_NEEDS, MAX_STEPS};
use crate::steps::Need;
use std::alloc::{AllocError, Global};

/// For each step, an unmarked step that it needs, if there is one.
fn blockers(alloc: Global, needs: &[Need], marks: &[bool]) -> Result<Vec<Option<u16>>, AllocError>
    requires known { AreKnown needs.now (length marks.now) }
    requires few { length marks.now ≤ 65536 }
    ensures { IfOk result (λ blockers. AreBlockers needs.now marks.now blockers.items) }
{
    let mut blockers: Vec<Option<u16>> = vec![in alloc; None; marks.len()]?;
    for need in needs {
        if !marks[need.on as usize] {
            blockers[need.step as usize] = Some(need.on as u16);
        }
    }
    Ok(blockers)
}

/// The number of needs of each step.
fn demands(alloc: Global, needs: &[Need], count: usize) -> Result<Vec<u16>, AllocError>
    requires known { AreKnown needs.now count }
    requires few { length needs.now ≤ MAX_NEEDS }
    ensures sized { IfOk result (λ unmet. length unmet.items ≡ count) }
    ensures each { IfOk result
        (λ unmet. (s : ℕ) → s < count → slice_index unmet.items s ≡ demand needs.now s) }
{
    let mut unmet: Vec<u16> = vec![in alloc; 0; count]?;
    for need in needs {
        unmet[need.step as usize] += 1;
    }
    Ok(unmet)
}

/// The steps whose count is 0.
fn free_steps(alloc: Global, unmet: &[u16]) -> Result<Vec<u16>, AllocError>
    requires { length unmet.now ≤ 65535 }
    ensures { IfOk result (λ todo. AreFree unmet.now todo.items) }
{
    let mut todo = Vec::new(alloc);
    for s in 0..unmet.len() as u16 {
        if unmet[s as usize] == 0 {
            todo.push(s)?;
        }
    }
    Ok(todo)
}

/// Decreases the count of each of the steps by one, and adds the steps whose count becomes 0 to the work list.
fn lower(unmet: &mut [u16], users: &[u16], todo: &mut Vec<u16>) -> Result<(), AllocError>
    requires known { All (λ (s : ℕ). s < length unmet.old) users.now }
    requires enough { (s : ℕ) → s < length unmet.old
        → occurs s users.now ≤ slice_index unmet.old s }
    ensures { IfOk result
        (λ _. AreLowered users.now unmet.old todo.old.items unmet.new todo.new.items) }
{
    for user in users {
        let left = unmet[*user as usize] - 1;
        unmet[*user as usize] = left;
        if left == 0 {
            todo.push(*user)?;
        }
    }
    Ok(())
}

/// The blockers when no further step can be marked. Takes time linear in the steps and needs.
fn peel(
    alloc: Global,
    needs: &[Need],
    dependants: &AdjacencyList,
    count: usize,
) -> Result<Vec<Option<u16>>, AllocError>
    requires known { AreKnown needs.now count }
    requires few { length needs.now ≤ MAX_NEEDS }
    requires few_steps { count ≤ MAX_STEPS }
    requires listed { ListsDependants needs.now count dependants.now }
    ensures { IfOk result (λ blockers. IsPeeled needs.now count blockers.items) }
{
    let mut unmet = demands(alloc, needs, count)?;
    let mut done = vec![in alloc; false; count]?;
    let mut todo = free_steps(alloc, &unmet)?;
    while let Some(s) = todo.pop() {
        done[s as usize] = true;
        let users = entries_at(
            dependants.starts.as_slice(),
            dependants.steps.as_slice(),
            s as usize,
        );
        lower(unmet.as_mut_slice(), users, &mut todo)?;
    }
    blockers(alloc, needs, &done)
}

fn tail_from(alloc: Global, path: &[u16], first: usize) -> Result<Vec<u16>, AllocError>
    requires { first ≤ length path.now }
    ensures { IfOk result (λ tail. tail.items ≡ drop first path.now) }
{
    Vec::from_slice(alloc, &path[first..])
}

/// Walks from a blocked step to its blocker, and so on, until a step repeats. Returns the walk from that step on.
fn ring_from(alloc: Global, blockers: &[Option<u16>], start: u16) -> Result<Vec<u16>, AllocError>
    requires leads_on { LeadsOn blockers.now }
    requires blocked { IsSome (slice_index_or blockers.now start None) }
    ensures { IfOk result (λ ring. IsRing blockers.now ring.items) }
{
    let mut path: Vec<u16> = Vec::new(alloc);
    let mut places: Vec<Option<usize>> = vec![in alloc; None; blockers.len()]?;
    let mut at = start;
    loop {
        if let Some(first) = places[at as usize] {
            return tail_from(alloc, &path, first);
        }
        places[at as usize] = Some(path.len());
        path.push(at)?;
        at = blockers[at as usize].unwrap();
    }
}

/// The first step that has a blocker.
fn first_blocked(blockers: &[Option<u16>]) -> Option<usize>
    ensures none { IfNone result (All (λ blocker. blocker ≡ None) blockers.now) }
    ensures some { IfSome result
        (λ s. (s < length blockers.now) × IsSome (slice_index_or blockers.now s None)) }
{
    blockers.iter().position(|blocker| blocker.is_some())
}

/// A cycle of steps, or none if no step precedes itself.
pub fn find_cycle(
    alloc: Global,
    needs: &[Need],
    dependants: &AdjacencyList,
    count: usize,
) -> Result<Option<Vec<u16>>, AllocError>
    requires known { AreKnown needs.now count }
    requires few { length needs.now ≤ MAX_NEEDS }
    requires few_steps { count ≤ MAX_STEPS }
    requires listed { ListsDependants needs.now count dependants.now }
    ensures found { IfOk result (λ answer. IfSome answer (λ cycle. IsCycle needs.now cycle.items)) }
    ensures none { IfOk result (λ answer. IfNone answer (IsAcyclic needs.now)) }
{
    let blockers = peel(alloc, needs, dependants, count)?;
    match first_blocked(&blockers) {
        None => Ok(None),
        Some(start) => Ok(Some(ring_from(alloc, &blockers, start as u16)?)),
    }
}
