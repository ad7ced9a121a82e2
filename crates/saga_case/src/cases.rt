//! Cases: the input of the planner.
ghost use Rattle.std.specs.Prelude.{◌≡◌, ◌<◌, ◌↔◌, if◌then◌else◌, IsTrue, IsOk, IfOk, IfErr, IfSome, IfNone, length, slice_get, true, false};
ghost use Rattle.saga_case.specs.Situation.{AreDrained, IsFirstBusy, HasStates};
ghost use Rattle.saga_def.specs.Order.{member};

use crate::prices::{leave_price_of, stand_price_of};
use crate::states::StepState;
use saga_def::{Definition, Price};
use std::marker::Model;

/// A definition with a state for each of its steps, none of which is busy, and whether the saga was aborted.
#[derive(Debug, Drop)]
pub struct Case<'d> {
    definition: &'d Definition,
    states: Vec<StepState>,
    aborted: bool,
}

impl<'d> Model for Case<'d> {
    ghost use Rattle.saga_case.specs.Situation.{Situation, situation, IsAtRest};

    ghost Value = { Situation };

    ghost view = { λ c. situation c.definition.now c.states.items c.aborted };

    ghost invariant = { λ c. IsAtRest (situation c.definition.now c.states.items c.aborted) };
}

/// Why states do not form a case. Both variants return the states.
#[derive(Debug, Drop)]
pub enum CaseFault {
    /// The number of states is not the number of steps.
    WrongLength(Vec<StepState>),
    /// The first step whose action or compensation is in progress.
    Busy(u16, Vec<StepState>),
}

fn first_busy(states: &[StepState]) -> Option<usize>
    ensures none { IfNone result (AreDrained states.now) }
    ensures some { IfSome result (IsFirstBusy states.now) }
{
    states.iter().position(|state| state.is_busy())
}

fn are_same(left: &[StepState], right: &[StepState]) -> bool
    ensures { IsTrue result ↔ (left.now ≡ right.now) }
{
    left == right
}

impl<'d> Case<'d> {
    ghost use Rattle.saga_case.specs.Situation.{situation, IsAtRest};
    ghost use Rattle.saga_case.specs.Faults.{IsFirstFault};
    ghost use Rattle.saga_case.specs.Terms.{terms_of, cost_of};
    ghost use Rattle.saga_case.specs.Prices.{IsBounded};

    fn make(
        definition: &'d Definition,
        states: Vec<StepState>,
        aborted: bool,
    ) -> Result<Case<'d>, CaseFault>
        ensures made { IfOk result (λ c. c ≡ situation definition.entry.now states.items aborted) }
        ensures exact { IsOk result ↔ HasStates definition.entry.now states.items }
        ensures fault { IfErr result (IsFirstFault definition.entry.now states) }
    {
        if states.len() != definition.steps() {
            return Err(CaseFault::WrongLength(states));
        }
        if let Some(step) = first_busy(&states) {
            return Err(CaseFault::Busy(step as u16, states));
        }
        Ok(Case {
            definition,
            states,
            aborted,
        })
    }

    /// The case of a saga that was not aborted. Takes no memory. A fault returns the states.
    pub fn new(definition: &'d Definition, states: Vec<StepState>) -> Result<Case<'d>, CaseFault>
        ensures made { IfOk result (λ c. c ≡ situation definition.entry.now states.items false) }
        ensures exact { IsOk result ↔ HasStates definition.entry.now states.items }
        ensures fault { IfErr result (IsFirstFault definition.entry.now states) }
    {
        Case::make(definition, states, false)
    }

    /// The case of an aborted saga, in which no waiting step can be kept. Otherwise like [`Case::new`].
    pub fn aborted(
        definition: &'d Definition,
        states: Vec<StepState>,
    ) -> Result<Case<'d>, CaseFault>
        ensures made { IfOk result (λ c. c ≡ situation definition.entry.now states.items true) }
        ensures exact { IsOk result ↔ HasStates definition.entry.now states.items }
        ensures fault { IfErr result (IsFirstFault definition.entry.now states) }
    {
        Case::make(definition, states, true)
    }

    /// Whether the saga was aborted.
    pub fn is_aborted(&self) -> bool
        ensures { result ≡ self.now.aborted }
    {
        self.aborted
    }

    /// The definition of the case.
    pub fn definition(&self) -> &'d Definition
        ensures value { result.now ≡ self.now.definition }
        ensures at_rest { IsAtRest self.now }
    {
        self.definition
    }

    /// The states in order.
    pub fn states(&self) -> &[StepState]
        ensures value { result.now ≡ self.now.states }
        ensures at_rest { IsAtRest self.now }
    {
        self.states.as_slice()
    }

    /// The state of a step.
    pub fn state(&self, i: u16) -> StepState
        requires { i < length self.now.definition.steps }
        ensures { slice_get self.now.states i ≡ Some result }
    {
        self.states[i as usize]
    }

    /// The cost to keep a step: its effect is in place at the end.
    pub fn stand_price(&self, i: u16) -> Price
        requires { i < length self.now.definition.steps }
        ensures exact { result ≡ (terms_of self.now).stand i }
        ensures bounded { IsBounded result }
    {
        let state = self.states[i as usize];
        stand_price_of(self.aborted, state, self.definition.step(i))
    }

    /// The cost to drop a step: its effect is not in place at the end.
    pub fn leave_price(&self, i: u16) -> Price
        requires { i < length self.now.definition.steps }
        ensures exact { result ≡ (terms_of self.now).leave i }
        ensures bounded { IsBounded result }
    {
        leave_price_of(self.states[i as usize], self.definition.step(i))
    }

    fn price(&self, i: u16, stands: bool) -> Price
        requires { i < length self.now.definition.steps }
        ensures exact { result
            ≡ (if stands then (terms_of self.now).stand i else (terms_of self.now).leave i) }
        ensures bounded { IsBounded result }
    {
        if stands {
            self.stand_price(i)
        } else {
            self.leave_price(i)
        }
    }

    /// The cost of a set of steps: the sum of the costs to keep its members and to drop the others.
    pub fn cost(&self, set: &[bool]) -> Price
        requires { length set.now ≡ length self.now.definition.steps }
        ensures { result ≡ cost_of (terms_of self.now) (member set.now) }
    {
        let count = self.definition.steps() as u16;
        let mut total: u64 = 0;
        for i in 0..count {
            match self.price(i, set[i as usize]) {
                Price::Of(amount) => total += amount,
                Price::Never => return Price::Never,
            }
        }
        Price::Of(total)
    }

    /// Whether the case has a definition with these contents, these states, and this flag.
    pub fn is_of(&self, definition: &Definition, states: &[StepState], aborted: bool) -> bool
        ensures { IsTrue result ↔ (self.now ≡ situation definition.now states.now aborted) }
    {
        if self.aborted != aborted || !are_same(&self.states, states) {
            return false;
        }
        *self.definition == *definition
    }
}
