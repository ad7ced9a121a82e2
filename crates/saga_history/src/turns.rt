//! The turn of a saga.
ghost use Rattle.std.specs.Prelude.{◌≡◌};
ghost use Rattle.saga_history.specs.Turns as spec;

use saga_case::Answer;

/// The turn of a saga: it works towards its goal, or a failure or an abort has ended that.
#[derive(Clone, Copy, Debug, PartialEq, Eq)]
pub enum Turn {
    /// Steps of the goal run, and others are compensated.
    Going,
    /// Busy steps come to their end, and no step starts.
    Draining,
    /// A plan is in progress.
    Planning,
    /// No set of steps was allowed.
    Stuck,
}

impl Turn {
    /// The turn after the saga was aborted.
    pub fn after_abort(self) -> Turn
        ensures { result ≡ spec.turn_after_abort self }
    {
        match self {
            Turn::Planning => Turn::Planning,
            _ => Turn::Draining,
        }
    }

    /// The turn after an answer was adopted.
    pub fn of_answer(answer: &Answer) -> Turn
        ensures { result ≡ spec.turn_of_answer answer.now }
    {
        match answer {
            Answer::Plan(_) => Turn::Going,
            Answer::Blocked(_) => Turn::Stuck,
        }
    }
}
