//! The lines of a report.
ghost use Rattle.std.specs.Prelude.{ℕ, ◌≡◌, ◌<◌, ◌++◌, List, OnOk, IfOk, IfSome, IfNone, Some, None, option_map, unwrap_or, option_and_then, slice_get, slice_index_or, length, string_bytes, decimal, flat_map};
ghost use Rattle.std.specs.List.{list_all, range_with_len};
ghost use Rattle.std.specs.Option.{option_copied};
ghost use Rattle.saga_case.specs.declared.states.StepState.TheVariants.{Waiting};
ghost use Rattle.saga_report.specs.Lines as spec;
ghost use Rattle.saga_report.specs.Views.{story_in};
ghost use Rattle.saga_report.specs.Sagas.{is_in};

use crate::sagas::{Cost, Saga};
use itoa::Buffer;
use saga_case::StepState;
use saga_def::Definition;
use saga_history::{Phase, Turn, is_off, is_standing};
use std::alloc::{AllocError, Global};

/// The state's word, padded to 9 columns.
fn padded_word(state: StepState) -> &'static str
    ensures { result.now ≡ spec.padded_word state }
{
    match state {
        StepState::Waiting => "waiting  ",
        StepState::Running => "running  ",
        StepState::Committed => "committed",
        StepState::Void => "void     ",
        StepState::Failed => "failed   ",
        StepState::Undoing => "undoing  ",
        StepState::Undone => "undone   ",
        StepState::Fixed => "fixed    ",
    }
}

/// The padding of a number to 4 columns.
fn pad_of(number: u64) -> &'static str
    ensures { result.now ≡ spec.pad_of number }
{
    if number < 10 {
        "   "
    } else if number < 100 {
        "  "
    } else if number < 1000 {
        " "
    } else {
        ""
    }
}

fn aborted_word(aborted: bool) -> &'static str
    ensures { result.now ≡ spec.aborted_word aborted }
{
    if aborted { " aborted" } else { "" }
}

fn push_head(
    alloc: Global,
    text: &mut String,
    number: u32,
    name: &str,
    phase: Phase,
    aborted: bool,
) -> Result<(), AllocError>
    ensures { OnOk result (string_bytes text.new ≡ string_bytes text.old
        ++ spec.head_line number name.now phase aborted) }
{
    let mut buffer = Buffer::new();
    let number = buffer.format(number as u64);
    let front = ["saga ", number, " "].concat(alloc)?;
    let back = [" ", phase.word(), aborted_word(aborted), "\n"].concat(alloc)?;
    text.push_str(front.as_str())?;
    text.push_str(name)?;
    text.push_str(back.as_str())
}

fn push_step(
    alloc: Global,
    text: &mut String,
    step: u16,
    state: StepState,
    name: &str,
) -> Result<(), AllocError>
    ensures { OnOk result (string_bytes text.new ≡ string_bytes text.old
        ++ spec.step_line step state name.now) }
{
    let mut buffer = Buffer::new();
    let number = buffer.format(step as u64);
    let pad = pad_of(step as u64);
    let front = [pad, number, " ", padded_word(state), " "].concat(alloc)?;
    text.push_str(front.as_str())?;
    text.push_str(name)?;
    text.push_str("\n")
}

fn push_plans(alloc: Global, text: &mut String, plans: usize, cost: Cost) -> Result<(), AllocError>
    ensures { OnOk result
        (string_bytes text.new ≡ string_bytes text.old ++ spec.plans_line plans cost) }
{
    let mut buffer = Buffer::new();
    let plans = buffer.format(plans as u64);
    let mut amount = Buffer::new();
    let cost = match cost {
        Cost::None => "none",
        Cost::Of(cost) => amount.format(cost),
        Cost::Blocked => "blocked",
    };
    let line = ["plans ", plans, " cost ", cost, "\n"].concat(alloc)?;
    text.push_str(line.as_str())
}

fn state_of(saga: &Saga, step: u16) -> StepState
    ensures { result ≡ (story_in saga.now).state step }
{
    if (step as usize) < saga.states.len() {
        saga.states[step as usize]
    } else {
        StepState::Waiting
    }
}

fn is_in_goal(saga: &Saga, step: u16) -> bool
    ensures { result ≡ (story_in saga.now).goal step }
{
    match &saga.goal {
        Some(marks) => (step as usize) < marks.len() && marks[step as usize],
        None => true,
    }
}

/// Whether a step of the goal is in effect, or another one is waiting, failed or undone.
fn is_done(saga: &Saga, step: u16) -> bool
    ensures { result
        ≡ spec.is_done ((story_in saga.now).goal step) ((story_in saga.now).state step) }
{
    let state = state_of(saga, step);
    if is_in_goal(saga, step) {
        is_standing(state)
    } else {
        is_off(state)
    }
}

fn are_done(saga: &Saga, count: u16) -> bool
    ensures { result
        ≡ list_all (λ s. spec.is_done ((story_in saga.now).goal s) ((story_in saga.now).state s))
        (range_with_len 0 count) }
{
    for step in 0..count {
        if !is_done(saga, step) {
            return false;
        }
    }
    true
}

fn phase_by(turn: Turn, done: bool) -> Phase
    ensures { result ≡ spec.phase_by turn done }
{
    match turn {
        Turn::Going if done => Phase::Ended,
        Turn::Going => Phase::Going,
        Turn::Draining => Phase::Draining,
        Turn::Planning => Phase::Planning,
        Turn::Stuck => Phase::Stuck,
    }
}

fn push_steps(
    alloc: Global,
    text: &mut String,
    definition: &Definition,
    saga: &Saga,
) -> Result<(), AllocError>
    ensures { OnOk result (string_bytes text.new ≡ string_bytes text.old
        ++ spec.step_lines definition.now (story_in saga.now)) }
{
    let count = definition.steps() as u16;
    for step in 0..count {
        let name = definition.step(step).name.as_str();
        push_step(alloc, text, step, state_of(saga, step), name)?;
    }
    Ok(())
}

/// Appends the lines of a saga with this definition.
fn push_known(
    alloc: Global,
    text: &mut String,
    definition: &Definition,
    number: u32,
    saga: &Saga,
) -> Result<Phase, AllocError>
    ensures text { IfOk result (λ _. string_bytes text.new ≡ string_bytes text.old
        ++ spec.saga_text definition.now number (story_in saga.now)) }
    ensures phase { IfOk result
        (λ phase. phase ≡ spec.phase_of definition.now (story_in saga.now)) }
{
    let done = are_done(saga, definition.steps() as u16);
    let phase = phase_by(saga.turn, done);
    push_head(alloc, text, number, definition.name(), phase, saga.aborted)?;
    push_steps(alloc, text, definition, saga)?;
    push_plans(alloc, text, saga.plans, saga.cost)?;
    Ok(phase)
}

/// Appends the lines of a saga that was opened with no definition of the shelf.
fn push_unknown(
    alloc: Global,
    text: &mut String,
    number: u32,
    saga: &Saga,
) -> Result<Phase, AllocError>
    ensures text { IfOk result (λ _. string_bytes text.new ≡ string_bytes text.old
        ++ spec.saga_text spec.no_contents number (story_in saga.now)) }
    ensures phase { IfOk result
        (λ phase. phase ≡ spec.phase_of spec.no_contents (story_in saga.now)) }
{
    let phase = phase_by(saga.turn, true);
    push_head(alloc, text, number, "", phase, saga.aborted)?;
    push_plans(alloc, text, saga.plans, saga.cost)?;
    Ok(phase)
}

fn definition_of<'d>(shelf: &'d [Definition], saga: &Saga) -> Option<&'d Definition>
    ensures { option_copied result ≡ option_and_then (slice_get shelf.entry.now) saga.now.opened }
{
    match saga.opened {
        Some(place) => shelf.get(place as usize),
        None => None,
    }
}

/// Appends the lines of a saga, and returns its phase.
pub fn push_saga(
    alloc: Global,
    text: &mut String,
    shelf: &[Definition],
    number: u32,
    saga: &Saga,
) -> Result<Phase, AllocError>
    ensures text { IfOk result
        (λ _. string_bytes text.new
        ≡ string_bytes text.old
        ++ spec.saga_text (spec.contents_of shelf.now (story_in saga.now)) number
        (story_in saga.now)) }
    ensures phase { IfOk result (λ phase. phase
        ≡ spec.phase_of (spec.contents_of shelf.now (story_in saga.now)) (story_in saga.now)) }
{
    match definition_of(shelf, saga) {
        Some(definition) => push_known(alloc, text, definition, number, saga),
        None => push_unknown(alloc, text, number, saga),
    }
}

/// Appends the last line.
pub fn push_total(
    alloc: Global,
    text: &mut String,
    sagas: usize,
    ended: usize,
    stuck: usize,
    events: u128,
) -> Result<(), AllocError>
    ensures { OnOk result (string_bytes text.new ≡ string_bytes text.old
        ++ spec.total_line sagas ended stuck events) }
{
    let mut first = Buffer::new();
    let mut second = Buffer::new();
    let mut third = Buffer::new();
    let mut fourth = Buffer::new();
    let sagas = first.format(sagas as u64);
    let ended = second.format(ended as u64);
    let stuck = third.format(stuck as u64);
    let events = fourth.format(events);
    let line = [
        "sagas ", sagas, " ended ", ended, " stuck ", stuck, " events ", events, "\n",
    ]
    .concat(alloc)?;
    text.push_str(line.as_str())
}
