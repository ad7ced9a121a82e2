//! Which changes the tables of a row allow, and the phase of its saga. Only [`Row::present_case`],
//! [`Row::drained_case`] and [`Row::is_present`] iterate over the steps.
ghost use Rattle.std.specs.Prelude.{◌≡◌, ◌<◌, ◌+◌, ◌↔◌, IsTrue, IfOk, IfSome, MatchOption, length};
ghost use Rattle.saga_history.specs.Tasks.{busy_state, tries_of};
ghost use Rattle.saga_history.specs.declared.turns.Turn.TheVariants.{Planning};
ghost use Rattle.saga_rows.specs.Row.{MayPlan};
ghost use Rattle.saga_rows.specs.Follows.{IsDrained, IsIn, RowHasPhase, RowMay, RowMayAbort, missed_at, row_case, row_end};

use crate::row::Row;
use saga_case::{Case, StepState};
use saga_history::{Kind, Outcome, Phase, Transition, Turn};
use std::alloc::{AllocError, Global};

impl<'d> Row<'d> {
    /// Whether a step is in a state.
    fn is_in(&self, step: u16, state: StepState) -> bool
        requires { step < length self.now.definition.steps }
        ensures { IsTrue result ↔ IsIn self.now step state }
    {
        let _ = self.steps();
        self.states()[step as usize] == state
    }

    /// The number of misses of a step's action, or of its compensation.
    fn missed(&self, step: u16, kind: Kind) -> u8
        requires { step < length self.now.definition.steps }
        ensures { result ≡ missed_at self.now kind step }
    {
        let _ = self.steps();
        match kind {
            Kind::Run => self.misses()[step as usize],
            Kind::Undo => self.undo_misses()[step as usize],
        }
    }

    /// The number of its tries.
    fn tries(&self, step: u16, kind: Kind) -> u64
        requires { step < length self.now.definition.steps }
        ensures { result ≡ tries_of kind self.now.definition step }
    {
        let step = self.definition().step(step);
        match kind {
            Kind::Run => step.tries,
            Kind::Undo => step.undo_tries,
        }
    }

    /// Whether it is retried if it fails now.
    fn is_tried_again(&self, step: u16, kind: Kind) -> bool
        requires { step < length self.now.definition.steps }
        ensures { IsTrue result
            ↔ (missed_at self.now kind step + 1 < tries_of kind self.now.definition step) }
    {
        u64::from(self.missed(step, kind)) + 1 < self.tries(step, kind)
    }

    /// Whether a step may make a transition.
    pub fn may(&self, step: u16, t: Transition) -> bool
        requires { step < length self.now.definition.steps }
        ensures { IsTrue result ↔ RowMay self.now step t }
    {
        match t {
            Transition::StartRun => self.may_run(step),
            Transition::Commit | Transition::Void => self.is_in(step, StepState::Running),
            Transition::Missed => {
                self.is_in(step, StepState::Running) && self.is_tried_again(step, Kind::Run)
            }
            Transition::Fail => self.is_in(step, StepState::Running)
                && !self.is_tried_again(step, Kind::Run),
            Transition::StartUndo => self.may_undo(step),
            Transition::Undone => self.is_in(step, StepState::Undoing),
            Transition::UndoMissed => {
                self.is_in(step, StepState::Undoing) && self.is_tried_again(step, Kind::Undo)
            }
            Transition::UndoFail => {
                self.is_in(step, StepState::Undoing) && !self.is_tried_again(step, Kind::Undo)
            }
        }
    }

    /// The transition by which the action of a step, or its compensation, ends with an outcome, if it is in progress.
    pub fn end_of(&self, step: u16, kind: Kind, outcome: Outcome) -> Option<Transition>
        requires { step < length self.now.definition.steps }
        ensures may { IfSome result (λ t. RowMay self.now step t) }
        ensures value { MatchOption result (IsIn self.now step (busy_state kind) → ⊥)
            (λ t. t ≡ row_end self.now step kind outcome) }
    {
        if !self.is_in(step, kind.busy_state()) {
            return None;
        }
        let missed = u64::from(self.missed(step, kind));
        Some(outcome.end_of(kind, missed, self.tries(step, kind)))
    }

    /// Whether a plan is in progress.
    pub fn is_planning(&self) -> bool
        ensures { IsTrue result ↔ (self.now.turn ≡ Planning) }
    {
        self.turn() == Turn::Planning
    }

    /// Whether the saga may be aborted.
    pub fn may_abort(&self) -> bool
        ensures { IsTrue result ↔ RowMayAbort self.now }
    {
        if self.is_aborted() {
            return false;
        }
        match self.turn() {
            Turn::Going => !self.is_ended(),
            Turn::Stuck => false,
            Turn::Draining | Turn::Planning => true,
        }
    }

    /// The phase of the saga.
    pub fn phase(&self) -> Phase
        ensures { RowHasPhase self.now result }
    {
        match self.turn() {
            Turn::Going => {
                if self.is_ended() {
                    Phase::Ended
                } else {
                    Phase::Going
                }
            }
            Turn::Draining => Phase::Draining,
            Turn::Planning => Phase::Planning,
            Turn::Stuck => Phase::Stuck,
        }
    }

    /// The present case of a saga that may be planned. Takes time linear in the steps.
    pub fn present_case(&self, alloc: Global) -> Result<Case<'d>, AllocError>
        requires { MayPlan self.now }
        ensures { IfOk result (λ case. case ≡ row_case self.now) }
    {
        self.drained_case(alloc)
    }

    /// The present case of a saga in which no step is busy. Takes time linear in the steps.
    pub fn drained_case(&self, alloc: Global) -> Result<Case<'d>, AllocError>
        requires { IsDrained self.now }
        ensures { IfOk result (λ case. case ≡ row_case self.now) }
    {
        let _ = self.steps();
        let states = self.states().to_vec(alloc)?;
        let made = if self.is_aborted() {
            Case::aborted(self.definition(), states)
        } else {
            Case::new(self.definition(), states)
        };
        match made {
            Ok(case) => Ok(case),
            Err(_) => unreachable!(),
        }
    }

    /// Whether a case is the present one. Takes time linear in the steps. If the case has another definition, it also
    /// takes time linear in the definition.
    pub fn is_present(&self, case: &Case) -> bool
        ensures { IsTrue result ↔ (case.now ≡ row_case self.now) }
    {
        case.is_of(self.definition(), self.states(), self.is_aborted())
    }
}
