//! What a seat claims: jobs and plans.
ghost use Rattle.std.specs.Prelude.{◌≡◌};
ghost use Rattle.saga_desk.specs.Job.{kind_of};

use saga_case::Case;
use saga_history::Kind;
use std::marker::Model;

/// The action of a step, or its compensation, that a seat has claimed. If a job is dropped, its step stays busy.
#[derive(Debug, Drop)]
pub struct Job<'d> {
    pub(crate) seat: u32,
    pub(crate) saga: u32,
    pub(crate) step: u16,
    pub(crate) is_undo: bool,
    pub(crate) name: &'d str,
    pub(crate) attempt: u64,
}

impl<'d> Model for Job<'d> {
    ghost use Rattle.saga_desk.specs.Job.{Job};

    ghost Value = { Job };

    ghost view = { λ j. record {
      seat = j.seat;
      saga = j.saga;
      step = j.step;
      is_undo = j.is_undo;
      name = j.name.now;
      attempt = j.attempt;
    } };
}

impl<'d> Job<'d> {
    /// The number of the saga.
    pub fn saga(&self) -> u32
        ensures { result ≡ self.now.saga }
    {
        self.saga
    }

    /// The number of the step in its definition.
    pub fn step(&self) -> u16
        ensures { result ≡ self.now.step }
    {
        self.step
    }

    /// The name of the step.
    pub fn name(&self) -> &'d str
        ensures { result.now ≡ self.now.name }
    {
        self.name
    }

    /// Whether the job is the compensation of the step, and not its action.
    pub fn is_undo(&self) -> bool
        ensures { result ≡ self.now.is_undo }
    {
        self.is_undo
    }

    /// Whether it is an action or a compensation.
    pub(crate) fn kind(&self) -> Kind
        ensures { result ≡ kind_of self.now.is_undo }
    {
        if self.is_undo { Kind::Undo } else { Kind::Run }
    }

    /// The number of the attempt, from 1. It counts all attempts in the life of the saga.
    pub fn attempt(&self) -> u64
        ensures { result ≡ self.now.attempt }
    {
        self.attempt
    }
}

/// The planning of a saga that a seat has claimed. If it is dropped, the saga stays in planning.
#[derive(Debug, Drop)]
pub struct PlanJob {
    pub(crate) seat: u32,
    pub(crate) saga: u32,
}

impl Model for PlanJob {
    ghost use Rattle.saga_desk.specs.Job.{PlanJob};

    ghost Value = { PlanJob };

    ghost view = { λ j. record { seat = j.seat; saga = j.saga } };
}

impl PlanJob {
    /// The number of the saga.
    pub fn saga(&self) -> u32
        ensures { result ≡ self.now.saga }
    {
        self.saga
    }
}

/// The result of a claim.
#[derive(Debug, Drop)]
pub enum Claim<'d> {
    /// Run a step's action.
    Run(Job<'d>),
    /// Run a step's compensation.
    Undo(Job<'d>),
    /// Plan a saga by its present case.
    Plan(PlanJob, Case<'d>),
    /// No task can start now, but not every saga is ended or stuck.
    Idle,
    /// Each saga is ended or stuck.
    Settled,
}
