//! Properties of the state of a step.
ghost use Rattle.std.specs.Prelude.{◌≡◌, ◌↔◌, IsTrue};
ghost use Rattle.saga_case.specs.States.{IsBusy};
ghost use Rattle.saga_history.specs.States as spec;

use saga_case::StepState;

/// The state that decides which transition may start: of a void step, it is committed.
pub fn unvoided(state: StepState) -> StepState
    ensures { result ≡ spec.unvoided state }
{
    match state {
        StepState::Void => StepState::Committed,
        _ => state,
    }
}

/// Whether the step is in effect for the steps that need it: it is committed, possibly
/// permanently, or void.
pub fn is_standing(state: StepState) -> bool
    ensures { result ≡ spec.is_standing state }
{
    match state {
        StepState::Committed | StepState::Void | StepState::Fixed => true,
        _ => false,
    }
}

/// Whether the step's action or compensation is in progress: it is running or undoing.
pub fn is_busy(state: StepState) -> bool
    ensures value { result ≡ spec.is_busy state }
    ensures same { IsTrue result ↔ IsBusy state }
{
    match state {
        StepState::Running | StepState::Undoing => true,
        _ => false,
    }
}

/// Whether the step has no effect and nothing is in progress: it is waiting, failed or undone.
pub fn is_off(state: StepState) -> bool
    ensures { result ≡ spec.is_off state }
{
    match state {
        StepState::Waiting | StepState::Failed | StepState::Undone => true,
        _ => false,
    }
}
