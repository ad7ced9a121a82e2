//! The tasks that may start.
ghost use Rattle.std.specs.Prelude.{ℕ, ◌≡◌, ◌<◌, ◌≤◌, ◌+◌, ◌*◌, ◌∷◌, [], All, IfOk, IfSome, IfNone, OnOk, Some, None, codes, length, map, option_map, string_bytes};
ghost use Rattle.std.specs.List.{concat};
ghost use Rattle.saga_core.specs.Refusals.{OfSaga};
ghost use Rattle.saga_core.specs.Tasks.{saga_of_task, MayStart};
ghost use Rattle.saga_views.specs.Ready as spec;
ghost use Rattle.saga_views.specs.Ready.{AddsOf, AreReady, IsAdded, IsReady, ListsAll, TellsReady};

use crate::tasks::taken_text;
use crate::words::listed;
use itoa::Buffer;
use saga_core::Book;
use saga_history::{Kind, Task};
use std::alloc::{AllocError, Global};

/// The number of tasks from which on a list does not continue with another saga.
pub const ENOUGH_TASKS: usize = 100;

/// Tasks, and the number of the saga from which to continue the list, if there are more.
#[derive(Drop)]
struct ReadyTasks {
    tasks: Vec<Task>,
    more: Option<u32>,
}

/// Appends a task if it may start.
fn push_task(tasks: &mut Vec<Task>, book: &Book<'_>, task: Task) -> Result<(), AllocError>
    ensures { OnOk result
        (IsAdded book.now task tasks.old.items tasks.new.items) }
{
    if book.may_start(task) {
        tasks.push(task)?;
    }
    Ok(())
}

/// Appends the tasks of a saga that may start. Takes time linear in its steps.
fn push_tasks(tasks: &mut Vec<Task>, book: &Book<'_>, saga: u32) -> Result<(), AllocError>
    ensures all { OnOk result ((from : ℕ) → from ≤ saga
        → ListsAll (IsReady book.now from (Some saga)) tasks.old.items
        → ListsAll (IsReady book.now from (Some (saga + 1)))
        tasks.new.items) }
    ensures only { OnOk result (AddsOf saga tasks.old.items tasks.new.items) }
{
    let Some(definition) = book.definition(saga) else {
        return Ok(());
    };
    let count = definition.steps();
    push_task(tasks, book, Task::Plan(saga))?;
    for step in 0..count as u16 {
        push_task(tasks, book, Task::Run(saga, step))?;
        push_task(tasks, book, Task::Undo(saga, step))?;
    }
    Ok(())
}

fn saga_of(task: Task) -> u32
    ensures { result ≡ saga_of_task task }
{
    match task {
        Task::Run(saga, _) | Task::Undo(saga, _) | Task::Plan(saga) => saga,
    }
}

/// Returns the tasks that may start, of the sagas from a number on. For each saga with such tasks, it searches the
/// sagas without a visit of their steps. It visits only the steps of the sagas whose tasks it returns.
fn ready_tasks(alloc: Global, book: &Book<'_>, from: u32) -> Result<ReadyTasks, AllocError>
    ensures { IfOk result (λ ready. AreReady book.now from
        ready.tasks.items ready.more) }
{
    let mut tasks = Vec::new(alloc);
    let mut saga = from;
    while let Some(task) = book.next_from(saga) {
        let found = saga_of(task);
        if tasks.len() >= ENOUGH_TASKS {
            return Ok(ReadyTasks {
                tasks,
                more: Some(found),
            });
        }
        push_tasks(&mut tasks, book, found)?;
        saga = found + 1;
    }
    Ok(ReadyTasks { tasks, more: None })
}

/// Returns the text of the plan of a saga.
fn plan_text(alloc: Global, saga: u32) -> Result<String, AllocError>
    ensures { IfOk result (λ text. string_bytes text ≡ spec.plan_text saga) }
{
    let mut buffer = Buffer::new();
    [
        "{\"saga\":",
        buffer.format(saga as u64),
        ",\"task\":\"plan\"}",
    ]
    .concat(alloc)
}

/// Returns the text of the action or the compensation of a step. It is empty if the saga does not exist.
fn step_text(
    alloc: Global,
    book: &Book<'_>,
    saga: u32,
    step: u16,
    kind: Kind,
) -> Result<String, AllocError>
    requires { OfSaga book.now saga (λ d l. step < length d.steps) }
    ensures { IfOk result
        (λ text. string_bytes text ≡ spec.step_text book.now kind saga step) }
{
    match book.saga(saga) {
        None => Ok(String::new(alloc)),
        Some(saga) => taken_text(alloc, &saga, step, kind),
    }
}

/// Returns the text of a task that may start.
fn text_of(alloc: Global, book: &Book<'_>, task: Task) -> Result<String, AllocError>
    requires { MayStart book.now task }
    ensures { IfOk result (λ text. string_bytes text ≡ spec.text_of book.now task) }
{
    match task {
        Task::Run(saga, step) => step_text(alloc, book, saga, step, Kind::Run),
        Task::Undo(saga, step) => step_text(alloc, book, saga, step, Kind::Undo),
        Task::Plan(saga) => plan_text(alloc, saga),
    }
}

/// Returns the texts of tasks that may start.
fn texts_of(alloc: Global, book: &Book<'_>, tasks: &[Task]) -> Result<Vec<String>, AllocError>
    requires { All (λ t. MayStart book.now t) tasks.now }
    ensures { IfOk result (λ texts. map string_bytes texts.items
        ≡ map (spec.text_of book.now) tasks.now) }
{
    let mut texts = Vec::new(alloc);
    for task in tasks {
        texts.push(text_of(alloc, book, *task)?)?;
    }
    Ok(texts)
}

/// Returns the start of a reply, with the saga from which to continue if there are more.
pub fn more_text(alloc: Global, more: Option<u32>) -> Result<String, AllocError>
    ensures { IfOk result (λ text. string_bytes text ≡ spec.more_text more) }
{
    match more {
        None => String::from_str(alloc, "{"),
        Some(saga) => {
            let mut buffer = Buffer::new();
            ["{\"more\":", buffer.format(saga as u64), ","].concat(alloc)
        }
    }
}

/// Returns the list of the tasks that may start, of the sagas from a number on. The list has all such tasks of each of
/// its sagas, and it ends with the saga that brings it to 100 tasks. If there are more, the reply has the saga from
/// which to continue. Takes time linear in the steps of the listed sagas, and for each of them one search of all sagas.
pub fn ready_text(alloc: Global, book: &Book<'_>, from: u32) -> Result<String, AllocError>
    ensures { IfOk result (λ text. TellsReady book.now from (string_bytes text)) }
{
    let ready = ready_tasks(alloc, book, from)?;
    let texts = texts_of(alloc, book, &ready.tasks)?;
    let head = more_text(alloc, ready.more)?;
    let listed = listed(alloc, &texts)?;
    [head.as_str(), "\"ready\":[", listed.as_str(), "]}\n"].concat(alloc)
}
