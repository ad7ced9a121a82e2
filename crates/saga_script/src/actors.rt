//! A script as an actor: its outcome for a job is the one that the script states.
use crate::scripts::Script;
use saga_desk::Job;
use saga_history::Outcome;
use saga_work::Actor;

impl Actor for Script {
    ghost use Rattle.saga_script.specs.Jobs.{AsksAbort, MayAnswer};

    ghost may = { λ script job outcome. MayAnswer script job outcome };

    ghost may_abort = { λ script job. AsksAbort script job };

    ghost must_abort = { λ script job. AsksAbort script job };

    fn run(&self, job: &Job<'_>) -> Outcome {
        self.outcome(job.saga(), job.name(), job.is_undo(), job.attempt())
    }

    fn undo(&self, job: &Job<'_>) -> Outcome {
        self.outcome(job.saga(), job.name(), job.is_undo(), job.attempt())
    }

    fn asks_abort(&self, job: &Job<'_>) -> bool {
        self.asks_abort(job.saga(), job.name(), job.is_undo(), job.attempt())
    }
}
