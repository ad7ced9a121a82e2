//! Reads the tables of the list `step`.
ghost use Rattle.std.specs.Prelude.{◌≡◌, map};
ghost use Rattle.toml.specs.View.{view, table_view};
ghost use Rattle.saga_bytes.specs.Readings.{each};
ghost use Rattle.saga_text.specs.Reads.{Gives};
ghost use Rattle.saga_text.specs.Format.{step_of, needs_of};
ghost use Rattle.saga_text.specs.Drafts.{names_of};

use crate::faults::TextFault;
use crate::kinds::{count_at, name_at, price_at, texts_at};
use saga_def::Step;
use std::alloc::Global;
use toml::Value;

/// The step of a table.
fn step_of(alloc: Global, item: &Value) -> Result<Step, TextFault>
    ensures { Gives (λ s. s) result (step_of (view item.now)) }
{
    let Value::Table(table) = item else {
        return Err(TextFault::BadType);
    };
    Ok(Step {
        name: name_at(alloc, table, "name")?,
        run: price_at(table, "run")?,
        undo: price_at(table, "undo")?,
        skip: price_at(table, "skip")?,
        keep: price_at(table, "keep")?,
        tries: count_at(table, "tries")?,
        undo_tries: count_at(table, "undo_tries")?,
    })
}

/// The steps of the tables.
pub fn steps_of(alloc: Global, items: &[Value]) -> Result<Vec<Step>, TextFault>
    ensures { Gives (λ steps. steps.items) result (each step_of (map view items.now)) }
{
    let mut steps = Vec::new(alloc);
    for item in items {
        steps.push(step_of(alloc, item)?)?;
    }
    Ok(steps)
}

/// The names of the steps that the step of a table needs.
fn needs_of<'a>(alloc: Global, item: &'a Value) -> Result<Vec<&'a str>, TextFault>
    ensures { Gives names_of result (needs_of (view item.entry.now)) }
{
    match item {
        Value::Table(table) => texts_at(alloc, table, "needs"),
        _ => Err(TextFault::BadType),
    }
}

/// The names of the steps that each step needs.
pub fn needs_of_each<'a>(alloc: Global, items: &'a [Value]) -> Result<Vec<Vec<&'a str>>, TextFault>
    ensures { Gives (λ needs. map names_of needs.items) result
        (each needs_of (map view items.entry.now)) }
{
    let mut needs = Vec::new(alloc);
    for item in items {
        needs.push(needs_of(alloc, item)?)?;
    }
    Ok(needs)
}
