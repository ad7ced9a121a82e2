//! Attempts: which attempt of a step is running, and whether a report refers to it.
ghost use Rattle.std.specs.Prelude.{◌≡◌, ◌≢◌, ◌↔◌, IsTrue, MatchOption};
ghost use Rattle.saga_case.specs.declared.states.StepState.TheVariants.{Running, Undoing};
ghost use Rattle.saga_history.specs.Tasks.{busy_state};
ghost use Rattle.saga_drive.specs.Attempts.{IsMeant};

use saga_case::StepState;
use saga_history::Kind;

/// An attempt of the action or compensation of a step. Its number counts from 1.
#[derive(Clone, Copy, Debug, PartialEq, Eq)]
pub struct Attempt {
    pub task: Kind,
    pub number: u16,
}

/// Returns the kind of task that is running at a step with this state.
pub fn on_its_way(state: StepState) -> Option<Kind>
    ensures { MatchOption result ((state ≢ Running) × (state ≢ Undoing))
        (λ kind. state ≡ busy_state kind) }
{
    match state {
        StepState::Running => Some(Kind::Run),
        StepState::Undoing => Some(Kind::Undo),
        _ => None,
    }
}

/// Returns whether a report with this optional attempt refers to the running attempt. A report without an attempt
/// always does.
pub fn is_meant(meant: Option<Attempt>, kind: Kind, number: u16) -> bool
    ensures { IsTrue result ↔ IsMeant meant kind number }
{
    match meant {
        None => true,
        Some(attempt) => attempt.task == kind && attempt.number == number,
    }
}
