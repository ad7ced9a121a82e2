//! Calls that take memory, with inputs of the maximum size and with ample memory: none fails.
use crate::nets::{Link, U, net};
use crate::trial::Trial;
use anyhow::{Result, bail, ensure};
use saga_case::{Answer, Case, StepState};
use saga_check::judge;
use saga_def::{Definition, MAX_NEEDS, MAX_STEPS, Need, Price, Step, Text};
use saga_flow::{largest, unbounded_path};
use saga_order::Order;
use saga_plan::plan_counted;
use std::alloc::Global;

#[derive(Clone, Copy)]
pub enum Size {
    Order,
    Largest,
    Plan,
}

pub fn run(trial: &mut Trial<'_>, which: Size) -> Result<()> {
    match which {
        Size::Order => order(trial),
        Size::Largest => flow(trial),
        Size::Plan => planned(trial),
    }
}

/// The number of steps.
const STEPS: u32 = MAX_STEPS as u32;

/// The number of steps directly before it that a step needs. It is eight for most steps, and nine for so many that the
/// number of needs is the maximum.
fn needs_of(step: u32) -> u32 {
    let most = if step < 45 { 9 } else { 8 };
    step.min(most)
}

/// The needs of all steps.
fn all_needs(alloc: Global) -> Result<Vec<Need>> {
    let mut needs = Vec::new(alloc);
    for step in 0..STEPS {
        for on in step.saturating_sub(needs_of(step))..step {
            needs.push(Need { step, on })?;
        }
    }
    ensure!(needs.len() == MAX_NEEDS, "another number of needs");
    Ok(needs)
}

/// The definition of maximum size: each step costs 1 to undo and 2 to keep.
fn greatest(alloc: Global) -> Result<Definition> {
    let mut steps = Vec::new(alloc);
    for step in 0..STEPS {
        steps.push(Step {
            name: Text::new(format!(in alloc; "s{step}")?),
            run: Price::Of(0),
            undo: Price::Of(1),
            skip: Price::Of(0),
            keep: Price::Of(2),
            tries: 1,
            undo_tries: 1,
        })?;
    }
    let name = Text::new(String::from_str(alloc, "greatest")?);
    match Definition::build(alloc, name, steps, all_needs(alloc)?) {
        Ok(definition) => Ok(definition),
        Err(fault) => bail!("{}", fault.word()),
    }
}

fn order(trial: &mut Trial<'_>) -> Result<()> {
    let alloc = trial.alloc();
    let definition = greatest(alloc)?;
    let order = Order::of(alloc, &definition)?;
    let longest = order.count() == MAX_STEPS && order.rank(1023) == 1023;
    ensure!(longest, "another order");
    Ok(())
}

/// The arcs of the case in which the last step has failed and all others are committed.
fn arcs(alloc: Global) -> Result<Vec<Link>> {
    let mut arcs = Vec::new(alloc);
    for step in 0..STEPS {
        let (leave, stand) = if step + 1 == STEPS { (0, U) } else { (1, 2) };
        arcs.push((0, 2 + step, leave))?;
        arcs.push((2 + step, 1, stand))?;
    }
    for need in &all_needs(alloc)? {
        arcs.push((need.step.saturating_add(2), need.on.saturating_add(2), U))?;
    }
    Ok(arcs)
}

fn flow(trial: &mut Trial<'_>) -> Result<()> {
    let alloc = trial.alloc();
    let net = net(alloc, 2 + STEPS, &arcs(alloc)?)?;
    ensure!(unbounded_path(alloc, &net)?.is_none(), "no greatest flow");
    ensure!(largest(alloc, &net)?.value == 1023, "another flow");
    Ok(())
}

/// Whether the plan is correct for a case in which the last step has failed: it keeps no step, and takes as many rounds
/// as there are steps.
fn is_planned(alloc: Global, case: &Case<'_>) -> Result<bool> {
    let (answer, rounds) = plan_counted(alloc, case)?;
    let right = judge(case, &answer).is_ok();
    let cost = match &answer {
        Answer::Plan(plan) => plan.cost,
        Answer::Blocked(_chain) => 0,
    };
    Ok(right && cost == 1023 && rounds == 1023)
}

fn planned(trial: &mut Trial<'_>) -> Result<()> {
    let alloc = trial.alloc();
    let definition = greatest(alloc)?;
    let mut states = vec![in alloc; StepState::Committed; MAX_STEPS - 1]?;
    states.push(StepState::Failed)?;
    match Case::new(&definition, states) {
        Ok(case) => ensure!(is_planned(alloc, &case)?, "another plan"),
        Err(_) => bail!("no case"),
    }
    Ok(())
}
