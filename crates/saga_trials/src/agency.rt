//! The agency, which books and cancels the steps of trips.
use anyhow::{Result, bail};
use saga_def::Definition;
use saga_desk::Job;
use saga_history::Outcome;
use saga_work::Actor;
use std::alloc::Global;

/// The number of seats of the tour. The first trips get them.
pub const SEATS: u32 = 2;

/// The services that can be booked.
#[derive(Clone, Copy, Debug)]
pub enum Service {
    Flight,
    Hotel,
    Tour,
}

/// The agency. It books each step of a trip with the service of the step.
#[derive(Debug, Drop)]
pub struct Agency {
    pub services: Vec<Service>,
}

impl Agency {
    ghost use Rattle.std.specs.Prelude.{◌≡◌};
    ghost use Rattle.saga_history.specs.declared.tasks.Outcome.{Outcome};
    ghost use Rattle.saga_trials.specs.Seats.{HasSeat};

    /// The agency for trips with this definition. The name of each step is that of a service.
    pub fn of(alloc: Global, trip: &Definition) -> Result<Agency> {
        let mut services = Vec::new(alloc);
        for step in trip.all_steps() {
            services.push(match step.name.as_str() {
                "flight" => Service::Flight,
                "hotel" => Service::Hotel,
                "tour" => Service::Tour,
                name => bail!("{name} is no service of this agency"),
            })?;
        }
        Ok(Agency { services })
    }

    /// Books a step of a trip. A hotel succeeds at the second attempt.
    pub fn book(&self, trip: u32, step: u16, attempt: u64) -> Outcome
        ensures { result ≡ Outcome.Done → HasSeat self.now trip step }
    {
        match self.services.get(step as usize) {
            Some(Service::Flight) => Outcome::Done,
            Some(Service::Hotel) if attempt > 1 => Outcome::Done,
            Some(Service::Tour) if trip < SEATS => Outcome::Done,
            _ => Outcome::Failed,
        }
    }
}

impl Actor for Agency {
    ghost use Rattle.saga_trials.specs.Seats.{MayAnswer};

    ghost may = { λ agency job outcome. MayAnswer agency job outcome };

    ghost may_abort = { λ agency job. ⊥ };

    ghost must_abort = { λ agency job. ⊥ };

    fn run(&self, job: &Job<'_>) -> Outcome {
        self.book(job.saga(), job.step(), job.attempt())
    }

    fn undo(&self, _job: &Job<'_>) -> Outcome {
        Outcome::Done
    }

    fn asks_abort(&self, _job: &Job<'_>) -> bool {
        false
    }
}
