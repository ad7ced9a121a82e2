//! Which reports and aborts a desk accepts.
use std::marker::Brand;

/// A policy says which outcomes of a job may be reported to a desk, and which sagas may be aborted. The books of a desk
/// have only such events, as [`Desk::finish`](crate::Desk::finish) states.
///
/// A policy has no methods and no value at run time. A contract knows only the type of a value that a lock protects, so
/// the type of a desk names its policy. A function that is generic in the policy states what it needs from it. A caller
/// that passes `Brand` chooses the policy.
pub trait Policy {
    ghost use Rattle.std.specs.Prelude.{ℕ};
    ghost use Rattle.saga_desk.specs.Job.{Job};
    ghost use Rattle.saga_history.specs.declared.tasks.Outcome.{Outcome};

    /// The outcomes that may be reported for a job.
    ghost may: { Job → Outcome → Type 0 };

    /// The sagas that may be aborted.
    ghost may_abort: { ℕ → Type 0 };
}

/// The policy that permits everything, which is used if no other is chosen.
impl Policy for Brand {
    ghost may = { λ job outcome. Unit {0} };

    ghost may_abort = { λ saga. Unit {0} };
}
