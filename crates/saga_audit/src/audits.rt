//! Audits, by one thread or by several.
ghost use Rattle.std.specs.Prelude.{◌≡◌, ℕ, ◌<◌, ◌≤◌, ◌↔◌, IfOk, IsTrue};
ghost use Rattle.std.specs.List.{AllZip, range_with_len};
ghost use Rattle.saga_history.specs.Changes.{past};
ghost use Rattle.saga_history.specs.Rules.{IsLegal};
ghost use Rattle.saga_history.specs.Headline.{Headline};
ghost use Rattle.saga_audit.specs.declared.answers.AuditAnswer.{AuditAnswer};
ghost use Rattle.saga_audit.specs.Groups.{Audits, Finds, everything, is_in, is_yes};

use crate::answers::{AuditAnswer, Finding, Tally, join};
use crate::chains::{Chains, chains_of};
use crate::sagas::{follow_saga, new_rows};
use rayon::prelude::*;
use saga_def::Definition;
use saga_history::{Event, headline};
use std::alloc::{AllocError, Global};
use std::thread::Threads;

/// The result for an empty group.
const NOTHING: Finding = Finding::Legal(Tally {
    sagas: 0,
    ended: 0,
    stuck: 0,
});

/// Returns the result for a group of sagas, which it audits one after the other.
fn find(
    alloc: Global,
    shelf: &[Definition],
    workers: u32,
    group: u32,
    events: &[Event],
) -> Result<Finding, AllocError>
    requires { 0 < workers }
    ensures { IfOk result (Finds shelf.now (is_in workers group) events.now) }
{
    let _ = events.len();
    let rows = new_rows(alloc, shelf)?;
    let Chains { links, mut heads } = chains_of(alloc, events, workers, group)?;
    let mut found = NOTHING;
    while let Some((saga, head)) = heads.pop_first() {
        let next = follow_saga(alloc, &rows, shelf, events, &links, saga, head)?;
        found = join(found, next);
    }
    Ok(found)
}

/// Returns the result of the audit from the result for all sagas.
fn answer_of(shelf: &[Definition], events: &[Event], found: Finding) -> AuditAnswer
    requires { Finds shelf.now everything events.now found }
    ensures { Audits shelf.now events.now result }
{
    headline(shelf, events);
    match found {
        Finding::Legal(tally) => AuditAnswer::Yes {
            sagas: tally.sagas,
            ended: tally.ended,
            stuck: tally.stuck,
            events: events.len(),
        },
        Finding::Refused { position, reason } => AuditAnswer::No { position, reason },
    }
}

/// Audits a history with a shelf, which is a list of definitions. The result is `Yes` with counts
/// if the history is legal. Otherwise it is `No` with the index of the first event that the rules
/// do not allow after the events before it, and the first reason that applies.
///
/// Sagas may have any numbers, in any order. Takes time linear in the history and the shelf, in
/// addition to one search for the number of the saga of each event. Takes memory linear in both; it
/// has the state tables of only one saga at a time. The only error is lack of memory.
pub fn audit(
    alloc: Global,
    shelf: &[Definition],
    events: &[Event],
) -> Result<AuditAnswer, AllocError>
    ensures answer { IfOk result (Audits shelf.now events.now) }
    ensures exact { IfOk result
        (λ answer. IsTrue (is_yes answer) ↔ IsLegal shelf.now (past events.now)) }
    ensures headline { IfOk result
        (λ answer. IsTrue (is_yes answer) → Headline shelf.now (past events.now)) }
{
    let found = find(alloc, shelf, 1, 0, events)?;
    Ok(answer_of(shelf, events, found))
}

/// Returns the result for each group.
fn find_all(
    rt: &(impl Threads + Sync),
    alloc: Global,
    workers: u32,
    shelf: &[Definition],
    events: &[Event],
) -> Result<Vec<Result<Finding, AllocError>>, AllocError>
    requires { 0 < workers }
    ensures { IfOk result
        (λ all. AllZip
        (λ group found. IfOk found (Finds shelf.now (is_in workers group) events.now))
        (range_with_len 0 workers) all.items) }
{
    (0..workers)
        .into_par_iter()
        .with_min_len(1)
        .map(
            |group: u32| -> Result<Finding, AllocError>
                requires { 0 < workers }
                ensures { IfOk result
                    (Finds shelf.entry.now (is_in workers group) events.entry.now) }
            { find(alloc, shelf, workers, group, events) },
        )
        .collect(rt, alloc)
}

/// Returns the result for one of the groups.
fn found_in(
    shelf: &[Definition],
    events: &[Event],
    workers: u32,
    all: &[Result<Finding, AllocError>],
    group: u32,
) -> Result<Finding, AllocError>
    requires within { group < workers }
    requires all { AllZip
        (λ group found. IfOk found (Finds shelf.now (is_in workers group) events.now))
        (range_with_len 0 workers) all.now }
    ensures { IfOk result (Finds shelf.now (is_in workers group) events.now) }
{
    let _ = shelf;
    let _ = events;
    match all.get(group as usize) {
        Some(found) => *found,
        None => Err(AllocError),
    }
}

/// Returns the result of [`audit`], for every number of workers. Each worker audits a group of the
/// sagas in its own thread, if the system provides one.
pub fn audit_with(
    rt: &(impl Threads + Sync),
    alloc: Global,
    workers: u32,
    shelf: &[Definition],
    events: &[Event],
) -> Result<AuditAnswer, AllocError>
    requires some { 0 < workers }
    requires few { workers ≤ 16 }
    ensures answer { IfOk result (Audits shelf.now events.now) }
    ensures same { IfOk result
        (λ answer. (other : AuditAnswer) → Audits shelf.now events.now other → answer ≡ other) }
    ensures exact { IfOk result
        (λ answer. IsTrue (is_yes answer) ↔ IsLegal shelf.now (past events.now)) }
    ensures headline { IfOk result
        (λ answer. IsTrue (is_yes answer) → Headline shelf.now (past events.now)) }
{
    let all = find_all(rt, alloc, workers, shelf, events)?;
    let _ = events.len();
    let mut found = NOTHING;
    for group in 0..workers {
        let next = found_in(shelf, events, workers, &all, group)?;
        found = join(found, next);
    }
    Ok(answer_of(shelf, events, found))
}
