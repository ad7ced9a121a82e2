//! Whether a row allows an event, and the row after it. A row has the state of one saga in tables.
ghost use Rattle.std.specs.Prelude.{◌≡◌, IfOk, None, Some, if◌then◌else◌};
ghost use Rattle.saga_history.specs.Changes.{change_of, moves, adopts};
ghost use Rattle.saga_audit.specs.Reasons as spec;
ghost use Rattle.saga_audit.specs.Decisions.{Decides, HasRoomFor, IsDrainedForPlanning, row_then};

use crate::reasons::Reason;
use saga_case::Answer;
use saga_check::judge;
use saga_history::{Event, Transition, Turn};
use saga_rows::Row;
use std::alloc::{AllocError, Global};

/// Returns the reason why a transition is not allowed.
fn reason_of_transition(transition: Transition) -> Reason
    ensures { result ≡ spec.reason_of_transition transition }
{
    match transition {
        Transition::StartRun | Transition::StartUndo => Reason::NotNow,
        Transition::Commit
        | Transition::Void
        | Transition::Missed
        | Transition::Fail
        | Transition::Undone
        | Transition::UndoMissed
        | Transition::UndoFail => Reason::NotTaken,
    }
}

/// Returns the reason why a step must not make a transition, or `None` if the transition is
/// allowed.
fn refusal_of_step(row: &Row, step: u16, transition: Transition) -> Option<Reason>
    ensures { Decides row.now (moves step transition) result }
{
    if step as usize >= row.steps() {
        return Some(Reason::NoSuchStep);
    }
    if row.may(step, transition) {
        None
    } else {
        Some(reason_of_transition(transition))
    }
}

/// Returns the reason why an answer must not be adopted, or `None` if it may be. The verifier
/// checks the answer for the current case.
fn refusal_of_answer(
    alloc: Global,
    row: &Row,
    answer: &Answer,
) -> Result<Option<Reason>, AllocError>
    requires { IsDrainedForPlanning row.now }
    ensures { IfOk result (Decides row.now (adopts answer.now)) }
{
    if !row.is_planning() {
        return Ok(Some(Reason::NotPlanning));
    }
    let case = row.drained_case(alloc)?;
    match judge(&case, answer) {
        Ok(()) => Ok(None),
        Err(_) => Ok(Some(Reason::NotRight)),
    }
}

/// Returns that reason, or `None` if the event is allowed.
fn unless(allowed: bool, reason: Reason) -> Option<Reason>
    ensures { result ≡ (if allowed then None else Some reason) }
{
    if allowed { None } else { Some(reason) }
}

/// Returns the reason why an event of an opened saga is not allowed, or `None` if it is allowed.
/// Allocates memory only for the case of an adopted answer.
pub fn refusal(alloc: Global, row: &Row, event: &Event) -> Result<Option<Reason>, AllocError>
    requires { IsDrainedForPlanning row.now }
    ensures { IfOk result (Decides row.now (change_of event.now)) }
{
    if let Some((step, transition)) = event.transition() {
        return Ok(refusal_of_step(row, step, transition));
    }
    match event {
        Event::StartPlan(_) => Ok(unless(row.may_plan(), Reason::NotNow)),
        Event::DropPlan(_) => Ok(unless(row.is_planning(), Reason::NotPlanning)),
        Event::Adopt(_, adopted) => refusal_of_answer(alloc, row, adopted.answer()),
        Event::Abort(_) => Ok(unless(row.may_abort(), Reason::NotNow)),
        _ => Ok(Some(Reason::DoubleOpen)),
    }
}

/// Applies an allowed event to the row.
pub fn follow(row: &mut Row, event: &Event)
    requires { HasRoomFor row.old (change_of event.now) }
    ensures { row.new ≡ row_then row.old (change_of event.now) }
{
    if let Some((step, transition)) = event.transition() {
        row.apply(step, transition);
        return;
    }
    match event {
        Event::StartPlan(_) => row.turn_to(Turn::Planning),
        Event::DropPlan(_) => row.turn_to(Turn::Draining),
        Event::Adopt(_, adopted) => row.adopt(adopted.answer()),
        Event::Abort(_) => row.abort(),
        _ => {}
    }
}
