//! An answer in its own memory. Contracts see it as the answer.
ghost use Rattle.std.specs.Prelude.{◌≡◌, IfOk};

use saga_case::Answer;
use std::alloc::{AllocError, Global};
use std::marker::Model;

/// The answer that a saga adopted, behind a pointer, so that an event stays small.
#[derive(Debug, Drop)]
pub struct Adopted {
    answer: Box<Answer>,
}

impl Model for Adopted {
    ghost use Rattle.saga_case.specs.declared.answers.Answer.{Answer};

    ghost Value = { Answer };

    ghost view = { λ a. a.answer.value };
}

impl Adopted {
    /// Allocates memory and stores the answer in it.
    pub fn new(alloc: Global, answer: Answer) -> Result<Adopted, AllocError>
        ensures { IfOk result (λ adopted. adopted ≡ answer) }
    {
        Ok(Adopted {
            answer: Box::new(alloc, answer)?,
        })
    }

    /// Stores another answer in the same memory. Takes no memory.
    pub fn fill(&mut self, answer: Answer)
        ensures { self.new ≡ answer }
    {
        *self.answer = answer;
    }

    /// The stored answer, borrowed.
    pub fn answer(&self) -> &Answer
        ensures { result.now ≡ self.now }
    {
        &self.answer
    }

    /// Returns the answer and frees its memory.
    pub fn into_answer(self) -> Answer
        ensures { result ≡ self }
    {
        let Adopted { answer } = self;
        Box::into_inner(answer)
    }
}
