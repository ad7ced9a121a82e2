//! Why an event is not allowed.
ghost use Rattle.std.specs.Prelude.{◌≡◌};
ghost use Rattle.saga_audit.specs.Words.{word_of};

/// Why an event is not allowed: the first reason that applies, in this order.
#[derive(Clone, Copy, Debug, PartialEq, Eq)]
pub enum Reason {
    /// The saga was opened before.
    DoubleOpen,
    /// The event opens a saga with a definition that is not on the shelf.
    NoSuchDefinition,
    /// The saga was not opened.
    NoSuchSaga,
    /// The saga's definition has no such step.
    NoSuchStep,
    /// An action, a compensation, a plan or an abort must not start now.
    NotNow,
    /// The event ends an action or a compensation that is not running, or ends it in another way
    /// than its tries allow.
    NotTaken,
    /// The event drops or adopts a plan, and no plan is in progress.
    NotPlanning,
    /// The adopted answer is not correct for the current case.
    NotRight,
}

impl Reason {
    /// Returns the reason as one word, for example `not-taken`.
    pub fn word(&self) -> &'static str
        ensures { result.now ≡ word_of self.now }
    {
        match self {
            Reason::DoubleOpen => "double-open",
            Reason::NoSuchDefinition => "no-such-definition",
            Reason::NoSuchSaga => "no-such-saga",
            Reason::NoSuchStep => "no-such-step",
            Reason::NotNow => "not-now",
            Reason::NotTaken => "not-taken",
            Reason::NotPlanning => "not-planning",
            Reason::NotRight => "not-right",
        }
    }
}
