//! Why a call is refused, with its arguments.
use crate::jobs::{Job, PlanJob};
use saga_check::Verdict;
use saga_core::{AdoptRefusal, DropRefusal, ReportRefusal};

/// Why the end of a claimed job or plan is refused.
#[derive(Clone, Copy, Debug, PartialEq, Eq)]
pub enum EndRefusal<Why> {
    /// A seat with another number claimed it, or the seat has no outstanding claim.
    OtherSeat,
    /// The job is not the next attempt of its step, or the step has another name. For example, it is a job of another
    /// desk.
    OtherAttempt,
    /// The book refuses the end.
    Book(Why),
}

/// A refused report.
#[derive(Debug, Drop)]
pub struct ReportRefused<'d> {
    pub job: Job<'d>,
    pub why: EndRefusal<ReportRefusal>,
}

/// A refused adoption.
#[derive(Debug, Drop)]
pub struct AdoptionRefused<'d> {
    pub job: PlanJob,
    pub verdict: Verdict<'d>,
    pub why: EndRefusal<AdoptRefusal>,
}

/// A refused end of a planning.
#[derive(Debug, Drop)]
pub struct GiveBackRefused {
    pub job: PlanJob,
    pub why: EndRefusal<DropRefusal>,
}
