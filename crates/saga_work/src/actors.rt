//! Actors, which run the steps.
ghost use Rattle.std.specs.Prelude.{◌≡◌, false, true};

use saga_desk::Job;
use saga_history::Outcome;

/// Runs the actions and compensations of steps, and returns their outcomes.
///
/// A relation says which outcomes it may return, and the contracts of workers use this relation. Workers call an actor
/// concurrently and without holding a lock.
pub trait Actor {
    ghost use Rattle.std.specs.Prelude.{Bool};
    ghost use Rattle.saga_desk.specs.Job.{Job};
    ghost use Rattle.saga_history.specs.declared.tasks.Outcome.{Outcome};

    /// The outcomes that it may return for a job.
    ghost may: { Self → Job → Outcome → Type 0 };

    /// The jobs after which it may request an abort of the saga.
    ghost may_abort: { Self → Job → Type 0 };

    /// The jobs after which it must request that.
    ghost must_abort: { Self → Job → Type 0 };

    /// Runs the action of a step.
    fn run(&self, job: &Job<'_>) -> Outcome
        requires { job.now.is_undo ≡ false }
        ensures { may self.now job.now result };

    /// Runs the compensation of a step.
    fn undo(&self, job: &Job<'_>) -> Outcome
        requires { job.now.is_undo ≡ true }
        ensures { may self.now job.now result };

    /// Returns whether the saga is to be aborted after this job. A worker asks this before it reports the job, and only
    /// if the job succeeded: if an action fails, the plan decides what happens to its saga.
    fn asks_abort(&self, job: &Job<'_>) -> bool
        ensures may { result ≡ true → may_abort self.now job.now }
        ensures must { must_abort self.now job.now → result ≡ true };
}
