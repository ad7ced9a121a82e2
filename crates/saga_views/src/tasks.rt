//! The texts of tasks: an action or a compensation, the number of its attempt, and the name of its step.
ghost use Rattle.std.specs.Prelude.{◌≡◌, ◌<◌, IfOk, length, slice_get, string_bytes};
ghost use Rattle.saga_views.specs.Tasks as spec;

use crate::words::kind_word;
use itoa::Buffer;
use saga_core::Saga;
use saga_def::Definition;
use saga_history::Kind;
use std::alloc::{AllocError, Global};

fn name_of<'d>(definition: &'d Definition, step: u16) -> &'d str
    requires { step < length definition.now.steps }
    ensures { result.now ≡ spec.name_in (slice_get definition.entry.now.steps step) }
{
    definition.step(step).name.as_str()
}

/// Returns the text of a started task.
fn task_text(
    alloc: Global,
    attempt: u16,
    name: &str,
    saga: u32,
    step: u16,
    task: &str,
) -> Result<String, AllocError>
    ensures { IfOk result (λ text. string_bytes text
        ≡ spec.task_text attempt name.now saga step task.now) }
{
    let mut first = Buffer::new();
    let mut second = Buffer::new();
    let mut third = Buffer::new();
    let attempt = first.format(attempt as u64);
    let saga = second.format(saga as u64);
    let step = third.format(step as u64);
    [
        "{\"attempt\":",
        attempt,
        ",\"name\":\"",
        name,
        "\",\"saga\":",
        saga,
        ",\"step\":",
        step,
        ",\"task\":\"",
        task,
        "\"}",
    ]
    .concat(alloc)
}

/// Returns the text of the action or the compensation of a step, as a started task.
pub fn taken_text(
    alloc: Global,
    saga: &Saga<'_, '_>,
    step: u16,
    kind: Kind,
) -> Result<String, AllocError>
    requires { step < length saga.now.definition.steps }
    ensures { IfOk result
        (λ text. string_bytes text ≡ spec.taken_text kind saga.now step) }
{
    let attempt = u16::from(saga.missed(kind, step)) + 1;
    let name = name_of(saga.definition(), step);
    task_text(alloc, attempt, name, saga.number(), step, kind_word(kind))
}
