//! Tasks of a saga, their outcomes, and the phases of a saga.
ghost use Rattle.std.specs.Prelude.{◌≡◌};
ghost use Rattle.saga_history.specs.Tasks as spec;

use crate::transitions::Transition;
use saga_case::StepState;

/// The phase of a saga.
#[derive(Clone, Copy, Debug, PartialEq, Eq)]
pub enum Phase {
    Going,
    /// A step has failed, or the saga was aborted, and busy steps come to their end.
    Draining,
    Planning,
    /// The steps of the goal are in effect, and no other step is.
    Ended,
    /// No set of steps was allowed.
    Stuck,
}

/// A task that may start, with the saga's number and the step's number.
#[derive(Clone, Copy, Debug, PartialEq, Eq)]
pub enum Task {
    /// Run a step's action.
    Run(u32, u16),
    /// Run a step's compensation.
    Undo(u32, u16),
    /// Plan how the saga ends.
    Plan(u32),
}

/// The kind of a task of a step: its action, or its compensation.
#[derive(Clone, Copy, Debug, PartialEq, Eq)]
pub enum Kind {
    Run,
    Undo,
}

/// How an action or a compensation ended.
#[derive(Clone, Copy, Debug, PartialEq, Eq)]
pub enum Outcome {
    Done,
    /// It ended without an effect.
    Void,
    Failed,
}

impl Phase {
    /// The phase in one word, for example `draining`.
    pub fn word(self) -> &'static str
        ensures { result.now ≡ spec.phase_word self }
    {
        match self {
            Phase::Going => "going",
            Phase::Draining => "draining",
            Phase::Planning => "planning",
            Phase::Ended => "ended",
            Phase::Stuck => "stuck",
        }
    }
}

impl Kind {
    /// The state of a step whose action, or compensation, is in progress.
    pub fn busy_state(self) -> StepState
        ensures { result ≡ spec.busy_state self }
    {
        match self {
            Kind::Run => StepState::Running,
            Kind::Undo => StepState::Undoing,
        }
    }
}

impl Outcome {
    /// The transition by which an action, or a compensation, ends with this outcome, after `misses` misses and with
    /// `tries` allowed attempts.
    pub fn end_of(self, kind: Kind, misses: u64, tries: u64) -> Transition
        ensures { result ≡ spec.end_of kind self misses tries }
    {
        let again = misses < tries && misses + 1 < tries;
        match (kind, self) {
            (Kind::Run, Outcome::Done) => Transition::Commit,
            (Kind::Run, Outcome::Void) => Transition::Void,
            (Kind::Run, Outcome::Failed) if again => Transition::Missed,
            (Kind::Run, Outcome::Failed) => Transition::Fail,
            (Kind::Undo, Outcome::Done | Outcome::Void) => Transition::Undone,
            (Kind::Undo, Outcome::Failed) if again => Transition::UndoMissed,
            (Kind::Undo, Outcome::Failed) => Transition::UndoFail,
        }
    }
}
