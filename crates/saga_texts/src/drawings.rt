//! The results of drawings of texts.
ghost use Rattle.std.specs.Prelude.{IfOk};
ghost use Rattle.saga_texts.specs.Conclusions.{DrawsAlone, DrawsWith, beside};

use crate::conclusions::{Conclusion, Question, conclusion_of};
use saga_draw::draw;
use saga_text::{TextFault, read_definition};
use std::alloc::{AllocError, Global};

/// The content of a drawing of a saga.
#[derive(Clone, Copy)]
pub enum Scene<'a> {
    /// Only its definition.
    Definition,
    /// The definition, and the states of the case in this text.
    Case(&'a [u8]),
    /// The definition, the states of the case in the first text, and the marks of the answer in the second text. The
    /// answer must be right for the case.
    Answer(&'a [u8], &'a [u8]),
}

/// Returns the result of a drawing of the definition in a text.
fn drawn_alone(alloc: Global, definition: &[u8]) -> Result<Conclusion, AllocError>
    ensures { IfOk result (DrawsAlone definition.now) }
{
    match read_definition(alloc, definition) {
        Ok(definition) => Ok(Conclusion::Drawn(draw(alloc, &definition, None, None)?)),
        Err(TextFault::OutOfMemory) => Err(AllocError),
        Err(fault) => Ok(Conclusion::Definition(fault)),
    }
}

/// Returns the result of a drawing of texts. A fault is the first in the order definition, case, answer. The limit for
/// the length of a text is checked together with that text.
pub fn drawing_of(
    alloc: Global,
    definition: &[u8],
    scene: Scene<'_>,
) -> Result<Conclusion, AllocError>
    ensures { IfOk result (DrawsWith (beside scene.entry) definition.now) }
{
    match scene {
        Scene::Definition => drawn_alone(alloc, definition),
        Scene::Case(case) => conclusion_of(alloc, definition, case, Question::Draw(None)),
        Scene::Answer(case, answer) => {
            conclusion_of(alloc, definition, case, Question::Draw(Some(answer)))
        }
    }
}
