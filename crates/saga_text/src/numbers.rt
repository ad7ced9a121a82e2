//! Names of steps, and their numbers.
ghost use Rattle.std.specs.Prelude.{◌≡◌, ◌≤◌, ℕ, List, IfOk, OnOk, ◌++◌, length, map};
ghost use Rattle.saga_text.specs.Format.{number_of, numbered};
ghost use Rattle.saga_text.specs.Drafts.{names_of};
ghost use Rattle.saga_text.specs.Numbers.{number_in};

use indexmap::IndexMap;
use saga_def::{Need, Step};
use std::alloc::{AllocError, Global};

/// The number of each name. If two steps have the same name, it is the number of the first.
fn numbers_of<'a>(alloc: Global, steps: &'a [Step]) -> Result<IndexMap<&'a str, u32>, AllocError>
    requires { length steps.now ≤ 65536 }
    ensures { IfOk result
        (λ numbers. (name : List ℕ)
        → number_in numbers (length steps.entry.now) name ≡ number_of steps.entry.now name) }
{
    let mut numbers: IndexMap<&'a str, u32> = IndexMap::new(alloc);
    for (number, step) in steps.iter().enumerate() {
        let name = step.name.as_str();
        if !numbers.contains_key(&name) {
            numbers.insert(name, number as u32)?;
        }
    }
    Ok(numbers)
}

/// Adds the needs of one step.
fn push_needs<'a>(
    needs: &mut Vec<Need>,
    numbers: &IndexMap<&'a str, u32>,
    step: u32,
    names: &[&'a str],
    count: u32,
) -> Result<(), AllocError>
    ensures { OnOk result
        (needs.new.items ≡ needs.old.items
        ++ map (λ name. record { step = step; on = number_in numbers.now count name.now })
        names.now) }
{
    for name in names {
        let on = numbers.get(name).copied().unwrap_or(count);
        needs.push(Need { step, on })?;
    }
    Ok(())
}

/// The needs of all steps, with numbers instead of names.
pub fn number_needs<'a>(
    alloc: Global,
    steps: &'a [Step],
    names: &[Vec<&'a str>],
) -> Result<Vec<Need>, AllocError>
    requires few { length steps.now ≤ 65536 }
    requires paired { length names.now ≡ length steps.now }
    ensures { IfOk result
        (λ needs. needs.items ≡ numbered (number_of steps.now) 0 (map names_of names.now)) }
{
    let numbers = numbers_of(alloc, steps)?;
    let mut needs = Vec::new(alloc);
    for (step, names) in names.iter().enumerate() {
        push_needs(&mut needs, &numbers, step as u32, names, steps.len() as u32)?;
    }
    Ok(needs)
}
