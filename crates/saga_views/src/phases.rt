//! The phases of the sagas of a book.
ghost use Rattle.std.specs.Prelude.{◌≡◌, IfOk};
ghost use Rattle.saga_views.specs.Phases as spec;

use saga_core::Book;
use saga_history::Phase;
use std::alloc::{AllocError, Global};

/// Returns the phase of each saga.
pub fn phases_of(alloc: Global, book: &Book<'_>) -> Result<Vec<Phase>, AllocError>
    ensures { IfOk result (λ phases. spec.ArePhases book.now phases.items) }
{
    let mut phases = Vec::new(alloc);
    for place in 0..book.sagas() {
        phases.push(book.phase_at(place))?;
    }
    Ok(phases)
}

/// Returns whether two phases are equal.
pub fn is_same(phase: Phase, other: Phase) -> bool
    ensures { result ≡ spec.same_phase phase other }
{
    match phase {
        Phase::Going => matches!(other, Phase::Going),
        Phase::Draining => matches!(other, Phase::Draining),
        Phase::Planning => matches!(other, Phase::Planning),
        Phase::Ended => matches!(other, Phase::Ended),
        Phase::Stuck => matches!(other, Phase::Stuck),
    }
}
