//! Transitions between the states of a step.
ghost use Rattle.std.specs.Prelude.{◌≡◌};
ghost use Rattle.saga_history.specs.States as spec;
ghost use Rattle.saga_history.specs.Turns.{turn_after_transition};

use crate::turns::Turn;
use saga_case::StepState;

/// A transition of a step. Each starts in one state and leads to another.
#[derive(Clone, Copy, Debug, PartialEq, Eq)]
pub enum Transition {
    /// Its action starts.
    StartRun,
    /// Its action succeeded.
    Commit,
    /// Its action ended without an effect.
    Void,
    /// Its action failed, and is retried.
    Missed,
    /// Its action failed, and is not retried.
    Fail,
    /// Its compensation starts.
    StartUndo,
    /// Its compensation succeeded.
    Undone,
    /// Its compensation failed, and is retried.
    UndoMissed,
    /// Its compensation failed permanently.
    UndoFail,
}

impl Transition {
    /// The state in which the transition starts, where a void step counts as committed.
    pub fn state_before(self) -> StepState
        ensures { result ≡ spec.state_before self }
    {
        match self {
            Transition::StartRun => StepState::Waiting,
            Transition::Commit | Transition::Void | Transition::Missed | Transition::Fail => {
                StepState::Running
            }
            Transition::StartUndo => StepState::Committed,
            Transition::Undone | Transition::UndoMissed | Transition::UndoFail => {
                StepState::Undoing
            }
        }
    }

    /// The state to which it leads.
    pub fn state_after(self) -> StepState
        ensures { result ≡ spec.state_after self }
    {
        match self {
            Transition::StartRun => StepState::Running,
            Transition::Commit | Transition::UndoMissed => StepState::Committed,
            Transition::Void => StepState::Void,
            Transition::Missed => StepState::Waiting,
            Transition::Fail => StepState::Failed,
            Transition::StartUndo => StepState::Undoing,
            Transition::Undone => StepState::Undone,
            Transition::UndoFail => StepState::Fixed,
        }
    }

    /// The turn of the saga after a step made the transition.
    pub fn turn_after(self, turn: Turn) -> Turn
        ensures { result ≡ turn_after_transition self turn }
    {
        match self {
            Transition::Fail | Transition::UndoFail => Turn::Draining,
            _ => turn,
        }
    }
}
