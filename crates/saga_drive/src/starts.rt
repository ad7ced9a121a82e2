//! The start of tasks. Each function builds the text for the reply before it changes the book. So if memory runs out,
//! the book is unchanged.
ghost use Rattle.std.specs.Prelude.{◌≡◌, true, IfErr, IfOk, OnErr, OnOk};
ghost use Rattle.saga_history.specs.Changes.{step_event};
ghost use Rattle.saga_history.specs.declared.events.Event.TheVariants as event;
ghost use Rattle.saga_history.specs.declared.tasks.Task.TheVariants as task;
ghost use Rattle.saga_core.specs.Book.{with_event, Allows};
ghost use Rattle.saga_core.specs.Refusals.{IsPresentCase, TakeRefused};
ghost use Rattle.saga_core.specs.Tasks.{IsFirstTask, MayStart};
ghost use Rattle.saga_drive.specs.Starts as spec;
ghost use Rattle.saga_drive.specs.Starts.{Started, HoldsPlan, IsUntouched, NextIsStarted, task_of};

use crate::phases::{phase_in, word_of};
use crate::replies::{item_of_plan, item_of_task};
use crate::tellings::Telling;
use saga_case::Case;
use saga_check::{Verdict, verify};
use saga_core::{Book, SagaRefusal, TakeRefusal};
use saga_history::{Event, Kind, Task, Transition};
use saga_plan::plan;
use saga_views::taken_text;
use std::alloc::{AllocError, Global};

/// Returns the transition that starts an action or a compensation.
fn start_of(kind: Kind) -> Transition
    ensures { result ≡ spec.start_of kind }
{
    match kind {
        Kind::Run => Transition::StartRun,
        Kind::Undo => Transition::StartUndo,
    }
}

/// Starts the action or the compensation of a step in the book.
fn take(book: &mut Book<'_>, saga: u32, step: u16, kind: Kind) -> Result<(), TakeRefusal>
    ensures ok { OnOk result
        (book.new ≡ with_event book.old (step_event saga step (spec.start_of kind))) }
    ensures err { OnErr result (book.new ≡ book.old) }
    ensures why { IfErr result
        (λ why. TakeRefused book.old saga step (spec.start_of kind) why) }
{
    match kind {
        Kind::Run => book.take_run(saga, step),
        Kind::Undo => book.take_undo(saga, step),
    }
}

/// Starts the action or the compensation of a step, which must be allowed to start, and appends it to the reply.
pub fn start_step(
    alloc: Global,
    book: &mut Book<'_>,
    saga: u32,
    step: u16,
    kind: Kind,
    telling: &mut Telling,
) -> Result<(), AllocError>
    requires { MayStart book.old (task_of kind saga step) }
    ensures ok { OnOk result
        (Started book.old book.new (task_of kind saga step) telling.old telling.new) }
    ensures err { OnErr result (IsUntouched book.old book.new telling.old telling.new) }
{
    let Some(found) = book.saga(saga) else {
        unreachable!()
    };
    let text = taken_text(alloc, &found, step, kind)?;
    let item = item_of_task(alloc, text, &Event::of_step(saga, step, start_of(kind)))?;
    telling.make_room(&item)?;
    match take(book, saga, step, kind) {
        Ok(()) => {
            telling.add(&item, "");
            Ok(())
        }
        Err(TakeRefusal::OutOfMemory) => Err(AllocError),
        Err(_) => unreachable!(),
    }
}

/// Starts a plan.
fn start_plan(book: &mut Book<'_>, saga: u32) -> Result<(), AllocError>
    requires { Allows book.old (event.StartPlan saga) }
    ensures ok { OnOk result (book.new ≡ with_event book.old (event.StartPlan saga)) }
    ensures err { OnErr result (book.new ≡ book.old) }
{
    match book.take_plan(saga) {
        Ok(_) => Ok(()),
        Err(SagaRefusal::OutOfMemory) => Err(AllocError),
        Err(_) => unreachable!(),
    }
}

/// Ends a plan with an answer that is right for the present case.
fn end_plan<'d>(book: &mut Book<'d>, saga: u32, verdict: Verdict<'d>)
    requires planned { HoldsPlan book.old saga verdict.case }
    ensures allowed { Allows book.old
        (event.Adopt saga verdict.entry.answer) }
    ensures adopted { book.new ≡ with_event book.old (event.Adopt saga verdict.entry.answer) }
{
    match book.adopt(saga, verdict) {
        Ok(()) => {}
        Err(_) => unreachable!(),
    }
}

/// Makes a plan for the present case of a saga and adopts it. The saga continues with the plan, or it is stuck with the
/// chain of steps that block it. Takes the time and memory of [`plan`].
pub fn plan_case<'d>(
    alloc: Global,
    book: &mut Book<'d>,
    saga: u32,
    case: Case<'d>,
    telling: &mut Telling,
) -> Result<(), AllocError>
    requires case { IsPresentCase book.old saga case }
    requires allowed { Allows book.old (event.StartPlan saga) }
    ensures ok { OnOk result
        (Started book.old book.new (task.Plan saga) telling.old telling.new) }
    ensures err { OnErr result (IsUntouched book.old book.new telling.old telling.new) }
{
    let answer = plan(alloc, &case)?;
    let item = item_of_plan(alloc, saga, &answer)?;
    telling.make_room(&item)?;
    let Ok(verdict) = verify(case, answer) else {
        unreachable!()
    };
    start_plan(book, saga)?;
    end_plan(book, saga, verdict);
    telling.add(&item, word_of(phase_in(book, saga)));
    Ok(())
}

/// Makes a plan for a saga, which is the first task.
fn plan_first(
    alloc: Global,
    book: &mut Book<'_>,
    saga: u32,
    telling: &mut Telling,
) -> Result<(), AllocError>
    requires { IsFirstTask book.old (task.Plan saga) }
    ensures ok { OnOk result (NextIsStarted true book.old book.new telling.old telling.new) }
    ensures err { OnErr result (IsUntouched book.old book.new telling.old telling.new) }
{
    match book.present_case(saga) {
        Ok(case) => plan_case(alloc, book, saga, case, telling),
        Err(SagaRefusal::OutOfMemory) => Err(AllocError),
        Err(_) => unreachable!(),
    }
}

/// Starts the first task, and returns whether there is one.
pub fn start_next(
    alloc: Global,
    book: &mut Book<'_>,
    telling: &mut Telling,
) -> Result<bool, AllocError>
    ensures ok { IfOk result
        (λ begun. NextIsStarted begun book.old book.new telling.old telling.new) }
    ensures err { OnErr result (IsUntouched book.old book.new telling.old telling.new) }
{
    match book.next() {
        None => return Ok(false),
        Some(Task::Run(saga, step)) => start_step(alloc, book, saga, step, Kind::Run, telling)?,
        Some(Task::Undo(saga, step)) => start_step(alloc, book, saga, step, Kind::Undo, telling)?,
        Some(Task::Plan(saga)) => plan_first(alloc, book, saga, telling)?,
    }
    Ok(true)
}
