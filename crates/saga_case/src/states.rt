//! The states of a step.
ghost use Rattle.std.specs.Prelude.{◌≡◌, ◌↔◌, IsTrue};
ghost use Rattle.saga_case.specs.States.{commits, word_of, IsBusy};

/// The state of a step of a saga.
#[derive(Clone, Copy, Debug, PartialEq, Eq)]
pub enum StepState {
    /// Not started, or failed and to be retried.
    Waiting,
    /// Its action is in progress.
    Running,
    Committed,
    /// Its action ended without an effect. For the steps that need it, it is committed.
    Void,
    /// Its action failed, and left no effect.
    Failed,
    /// Its compensation is in progress.
    Undoing,
    /// Compensated.
    Undone,
    /// Committed permanently: its compensation failed.
    Fixed,
}

impl StepState {
    /// The state in one word, for example `waiting`.
    pub fn word(&self) -> &'static str
        ensures { result.now ≡ word_of self.now }
    {
        match self {
            StepState::Waiting => "waiting",
            StepState::Running => "running",
            StepState::Committed => "committed",
            StepState::Void => "void",
            StepState::Failed => "failed",
            StepState::Undoing => "undoing",
            StepState::Undone => "undone",
            StepState::Fixed => "fixed",
        }
    }

    /// Whether its action or its compensation is in progress.
    pub fn is_busy(&self) -> bool
        ensures { IsTrue result ↔ IsBusy self.now }
    {
        match self {
            StepState::Running | StepState::Undoing => true,
            _ => false,
        }
    }

    /// Whether it counts as committed for the steps that need it: it is committed or void.
    pub fn commits(&self) -> bool
        ensures { result ≡ commits self.now }
    {
        match self {
            StepState::Committed | StepState::Void => true,
            _ => false,
        }
    }
}
