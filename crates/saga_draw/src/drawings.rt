//! Drawings.
ghost use Rattle.std.specs.Prelude.{◌≡◌, ◌++◌, IfOk, OnOk, option_map, slice_get, string_bytes};
ghost use Rattle.saga_draw.specs.Drawings as spec;
ghost use Rattle.saga_draw.specs.Drawings.{HasPlainNames, IsDrawing};
ghost use Rattle.saga_draw.specs.Marks.{mark_in, need_mark_in};

use crate::lines::{push_all, push_edge, push_node};
use crate::marks::Marks;
use itoa::Buffer;
use saga_case::{Answer, StepState};
use saga_def::{Definition, Need, Step};
use std::alloc::{AllocError, Global};

/// The state of a step, if states are given.
fn state_of(states: Option<&[StepState]>, step: u16) -> Option<StepState>
    ensures { result ≡ spec.state_in (option_map (λ s. s.now) states.entry) step }
{
    match states {
        None => None,
        Some(states) => states.get(step as usize).copied(),
    }
}

/// The name of a step. It is empty if there is no such step.
fn name_of<'a>(steps: &'a [Step], step: u32) -> &'a str
    ensures { result.now ≡ spec.name_of (slice_get steps.entry.now step) }
{
    match steps.get(step as usize) {
        Some(step) => step.name.as_str(),
        None => "",
    }
}

/// Appends the cost of a plan.
fn push_cost(text: &mut String, cost: u64) -> Result<(), AllocError>
    ensures { OnOk result (string_bytes text.new ≡ string_bytes text.old ++ spec.cost_text cost) }
{
    let mut buffer = Buffer::new();
    let cost = buffer.format(cost);
    push_all(text, &[": plan of cost ", cost, "\\ndouble outline: kept"])
}

/// Appends the description of an answer.
fn push_answer(text: &mut String, answer: &Answer) -> Result<(), AllocError>
    ensures { OnOk result
        (string_bytes text.new ≡ string_bytes text.old ++ spec.answer_text answer.now) }
{
    match answer {
        Answer::Plan(plan) => push_cost(text, plan.cost),
        Answer::Blocked(_) => text.push_str(": blocked\\nthick outline: the chain that shows it"),
    }
}

/// Appends the caption below the picture: the name, and the description of an answer.
fn push_title(text: &mut String, name: &str, answer: Option<&Answer>) -> Result<(), AllocError>
    ensures { OnOk result (string_bytes text.new ≡ string_bytes text.old
        ++ spec.title_text name.now (option_map (λ a. a.now) answer.entry)) }
{
    text.push_str(name)?;
    match answer {
        None => Ok(()),
        Some(answer) => push_answer(text, answer),
    }
}

/// Appends the text before the steps.
fn push_head(text: &mut String, name: &str, answer: Option<&Answer>) -> Result<(), AllocError>
    ensures { OnOk result (string_bytes text.new ≡ string_bytes text.old
        ++ spec.head_text name.now (option_map (λ a. a.now) answer.entry)) }
{
    text.push_str("digraph \"")?;
    text.push_str(name)?;
    text.push_str("\" {\n  graph [rankdir=RL fontname=\"Helvetica\" label=\"")?;
    push_title(text, name, answer)?;
    text.push_str("\"];\n  node [fontname=\"Helvetica\" fontsize=12];\n")
}

/// Appends a line for each step.
fn push_nodes(
    text: &mut String,
    definition: &Definition,
    states: Option<&[StepState]>,
    marks: &Marks<'_>,
) -> Result<(), AllocError>
    ensures { OnOk result
        (string_bytes text.new
        ≡ string_bytes text.old
        ++ spec.node_lines definition.now.steps (option_map (λ s. s.now) states.entry)
        (mark_in marks.now)) }
{
    let count = definition.steps() as u16;
    for step in 0..count {
        let state = state_of(states, step);
        push_node(
            text,
            definition.step(step),
            state,
            marks.of_step(step as u32),
        )?;
    }
    Ok(())
}

/// Appends a line for each need.
fn push_edges(
    text: &mut String,
    steps: &[Step],
    needs: &[Need],
    marks: &Marks<'_>,
) -> Result<(), AllocError>
    ensures { OnOk result (string_bytes text.new ≡ string_bytes text.old
        ++ spec.edge_lines steps.now needs.now (need_mark_in marks.now)) }
{
    for need in needs {
        let step = name_of(steps, need.step);
        let on = name_of(steps, need.on);
        push_edge(text, step, on, marks.of_need(*need))?;
    }
    Ok(())
}

/// The drawing of a definition in Graphviz's language. It has a node for each step, in order, and an arrow for each
/// need, in order, from the step to the step that it needs. A node has the step's name, its state if states are given,
/// and those of its costs that are not 0. The drawing marks the answer, whether it is right or not: the kept steps and
/// the needs between them, or the steps of the chain and the needs along it.
pub fn draw(
    alloc: Global,
    definition: &Definition,
    states: Option<&[StepState]>,
    answer: Option<&Answer>,
) -> Result<String, AllocError>
    ensures text { IfOk result
        (λ text. IsDrawing definition.now (option_map (λ s. s.now) states.entry)
        (option_map (λ a. a.now) answer.entry) (string_bytes text)) }
    ensures names { IfOk result (λ _. HasPlainNames definition.now) }
{
    let marks = Marks::of(alloc, answer)?;
    let mut text = String::new(alloc);
    push_head(&mut text, definition.name(), answer)?;
    push_nodes(&mut text, definition, states, &marks)?;
    push_edges(
        &mut text,
        definition.all_steps(),
        definition.all_needs(),
        &marks,
    )?;
    text.push_str("}\n")?;
    Ok(text)
}
