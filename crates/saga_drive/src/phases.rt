//! The word for the phase of a saga.
ghost use Rattle.std.specs.Prelude.{◌≡◌, ◌≤◌, length};
ghost use Rattle.saga_core.specs.Refusals.{IsUnknown};
ghost use Rattle.saga_core.specs.Tasks.{StandsAt};
ghost use Rattle.saga_history.specs.Tasks.{phase_word};

use saga_core::Book;
use saga_history::Phase;

/// Returns the word for a phase. It has at most 8 bytes.
#[tactic(auto, using(crate::proofs::PhaseLemmas::short_word))]
pub fn word_of(phase: Phase) -> &'static str
    ensures word { result.now ≡ phase_word phase }
    ensures short { length result.now ≤ 8 }
{
    phase.word()
}

/// Returns the phase of a saga that exists.
pub fn phase_in(book: &Book<'_>, saga: u32) -> Phase
    requires { IsUnknown book.now saga → ⊥ }
    ensures { StandsAt book.now saga result }
{
    match book.phase(saga) {
        Some(phase) => phase,
        None => unreachable!(),
    }
}
