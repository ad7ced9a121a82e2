//! The tasks that were started and not yet reported.
ghost use Rattle.std.specs.Prelude.{◌≡◌, ◌<◌, ◌++◌, OnOk, IfOk, length, map, string_bytes};
ghost use Rattle.saga_history.specs.States.{state};
ghost use Rattle.saga_core.specs.Book.{sagas_in};
ghost use Rattle.saga_views.specs.Busy as spec;

use crate::tasks::taken_text;
use crate::words::listed;
use saga_case::StepState;
use saga_core::{Book, Saga};
use saga_history::Kind;
use std::alloc::{AllocError, Global};

/// Appends the task of a step if the step is busy.
fn push_busy_step(
    alloc: Global,
    texts: &mut Vec<String>,
    saga: &Saga<'_, '_>,
    step: u16,
) -> Result<(), AllocError>
    requires { step < length saga.now.definition.steps }
    ensures { OnOk result (map string_bytes texts.new.items ≡ map string_bytes texts.old.items
        ++ spec.busy_in (state saga.now.changes step) saga.now step) }
{
    match saga.state(step) {
        StepState::Running => texts.push(taken_text(alloc, saga, step, Kind::Run)?)?,
        StepState::Undoing => texts.push(taken_text(alloc, saga, step, Kind::Undo)?)?,
        _ => {}
    }
    Ok(())
}

/// Appends the tasks of the busy steps of a saga.
fn push_busy_steps(
    alloc: Global,
    texts: &mut Vec<String>,
    saga: &Saga<'_, '_>,
) -> Result<(), AllocError>
    ensures { OnOk result (map string_bytes texts.new.items ≡ map string_bytes texts.old.items
        ++ spec.busy_below saga.now (length saga.now.definition.steps)) }
{
    let count = saga.definition().steps();
    for step in 0..count as u16 {
        push_busy_step(alloc, texts, saga, step)?;
    }
    Ok(())
}

/// Appends the tasks of the busy steps of a saga, if the saga exists.
fn push_busy_saga(
    alloc: Global,
    texts: &mut Vec<String>,
    book: &Book<'_>,
    saga: u32,
) -> Result<(), AllocError>
    ensures { OnOk result (map string_bytes texts.new.items ≡ map string_bytes texts.old.items
        ++ spec.busy_of book.now saga) }
{
    match book.saga(saga) {
        None => Ok(()),
        Some(saga) => push_busy_steps(alloc, texts, &saga),
    }
}

/// Returns the texts of the tasks that were started and not yet reported, in the order of sagas and then of steps.
/// Takes time linear in the sagas and their steps.
fn busy_texts(alloc: Global, book: &Book<'_>) -> Result<Vec<String>, AllocError>
    ensures { IfOk result (λ texts. map string_bytes texts.items
        ≡ spec.busy_up_to book.now (sagas_in book.now.history)) }
{
    let mut texts = Vec::new(alloc);
    let first = book.first();
    let stride = book.stride();
    for place in 0..book.sagas() {
        let saga = first + place as u32 * stride;
        push_busy_saga(alloc, &mut texts, book, saga)?;
    }
    Ok(texts)
}

/// Returns the reply with the tasks that were started and not yet reported.
pub fn busy_text(alloc: Global, book: &Book<'_>) -> Result<String, AllocError>
    ensures { IfOk result (λ text. string_bytes text ≡ spec.busy_text book.now) }
{
    let tasks = listed(alloc, &busy_texts(alloc, book)?)?;
    ["{\"busy\":[", tasks.as_str(), "]}\n"].concat(alloc)
}
