//! The lines of a drawing.
ghost use Rattle.std.specs.Prelude.{◌≡◌, ◌++◌, OnOk, flat_map, string_bytes};
ghost use Rattle.saga_draw.specs.Lines as spec;

use crate::marks::Mark;
use itoa::Buffer;
use saga_case::StepState;
use saga_def::{Price, Step};
use std::alloc::AllocError;

/// Appends pieces of text, one after another.
pub fn push_all(text: &mut String, pieces: &[&str]) -> Result<(), AllocError>
    ensures { OnOk result (string_bytes text.new ≡ string_bytes text.old
        ++ flat_map (λ piece. piece.now) pieces.now) }
{
    for piece in pieces {
        text.push_str(piece)?;
    }
    Ok(())
}

/// The shape, outline and color of a step with this state. Each state has another shape or outline.
fn look_of(state: Option<StepState>) -> &'static str
    ensures { result.now ≡ spec.look_of state }
{
    match state {
        None => "shape=box",
        Some(StepState::Waiting) => "shape=box style=dashed",
        Some(StepState::Running) => "shape=parallelogram style=filled fillcolor=\"#cfe3f5\"",
        Some(StepState::Committed) => "shape=box style=filled fillcolor=\"#b9dfbb\"",
        Some(StepState::Void) => "shape=box style=\"filled,dashed\" fillcolor=\"#e0f0e0\"",
        Some(StepState::Failed) => "shape=octagon style=filled fillcolor=\"#f0aaa4\"",
        Some(StepState::Undoing) => "shape=trapezium style=filled fillcolor=\"#f2dfb0\"",
        Some(StepState::Undone) => "shape=ellipse style=\"filled,dotted\" fillcolor=\"#eeeeee\"",
        Some(StepState::Fixed) => "shape=hexagon style=filled fillcolor=\"#6fae75\"",
    }
}

/// The first text for a kept element, and the second for an element of the chain.
fn mark_text(mark: Mark, kept: &'static str, chained: &'static str) -> &'static str
    ensures { result.now ≡ spec.mark_text kept.now chained.now mark }
{
    match mark {
        Mark::Plain => "",
        Mark::Kept => kept,
        Mark::Chained => chained,
    }
}

/// The outline of a marked step.
fn outline_of(mark: Mark) -> &'static str
    ensures { result.now ≡ spec.outline_of mark }
{
    mark_text(mark, " peripheries=2", " penwidth=4")
}

/// The line of a marked need.
fn stroke_of(mark: Mark) -> &'static str
    ensures { result.now ≡ spec.stroke_of mark }
{
    mark_text(mark, " [penwidth=2]", " [penwidth=4]")
}

fn mark_word(mark: Mark) -> &'static str
    ensures { result.now ≡ spec.mark_word mark }
{
    mark_text(mark, ", kept", ", in the chain")
}

fn push_state(text: &mut String, state: Option<StepState>) -> Result<(), AllocError>
    ensures { OnOk result (string_bytes text.new ≡ string_bytes text.old ++ spec.state_text state) }
{
    match state {
        None => Ok(()),
        Some(state) => push_all(text, &["\\n", state.word()]),
    }
}

/// Appends a cost, if it is not 0.
fn push_price(text: &mut String, word: &str, price: Price) -> Result<(), AllocError>
    ensures { OnOk result
        (string_bytes text.new ≡ string_bytes text.old ++ spec.price_text word.now price) }
{
    match price {
        Price::Of(0) => Ok(()),
        Price::Of(amount) => {
            let mut buffer = Buffer::new();
            let amount = buffer.format(amount);
            push_all(text, &["\\n", word, " ", amount])
        }
        Price::Never => push_all(text, &["\\n", word, " never"]),
    }
}

/// Appends the label of a step.
fn push_label(
    text: &mut String,
    step: &Step,
    state: Option<StepState>,
    mark: Mark,
) -> Result<(), AllocError>
    ensures { OnOk result
        (string_bytes text.new ≡ string_bytes text.old ++ spec.label_text step.now state mark) }
{
    text.push_str(step.name.as_str())?;
    push_state(text, state)?;
    text.push_str(mark_word(mark))?;
    push_price(text, "run", step.run)?;
    push_price(text, "undo", step.undo)?;
    push_price(text, "skip", step.skip)?;
    push_price(text, "keep", step.keep)
}

/// Appends the line of a step.
pub fn push_node(
    text: &mut String,
    step: &Step,
    state: Option<StepState>,
    mark: Mark,
) -> Result<(), AllocError>
    ensures { OnOk result
        (string_bytes text.new ≡ string_bytes text.old ++ spec.node_line step.now state mark) }
{
    text.push_str("  \"")?;
    text.push_str(step.name.as_str())?;
    push_all(
        text,
        &["\" [", look_of(state), outline_of(mark), " label=\""],
    )?;
    push_label(text, step, state, mark)?;
    text.push_str("\"];\n")
}

/// Appends the line of a need: an arrow from the step with the first name to the step with the second name, which it
/// needs.
pub fn push_edge(text: &mut String, step: &str, on: &str, mark: Mark) -> Result<(), AllocError>
    ensures { OnOk result
        (string_bytes text.new ≡ string_bytes text.old ++ spec.edge_line step.now on.now mark) }
{
    text.push_str("  \"")?;
    text.push_str(step)?;
    text.push_str("\" -> \"")?;
    text.push_str(on)?;
    push_all(text, &["\"", stroke_of(mark), ";\n"])
}
