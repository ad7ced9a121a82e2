//! The tables of one saga.
ghost use Rattle.std.specs.Prelude.{ℕ, Bool, ◌≡◌, ◌<◌, ◌≤◌, ◌↔◌, IsTrue, IfOk, MatchOption, true, length, replicate, slice_index, slice_set};
ghost use Rattle.saga_case.specs.declared.states.StepState.TheVariants.{Waiting};
ghost use Rattle.saga_history.specs.declared.turns.Turn.TheVariants.{Going};
ghost use Rattle.saga_def.specs.Neighbours.{needs_of};
ghost use Rattle.saga_rows.specs.Row as spec;
ghost use Rattle.saga_rows.specs.Tables.{IsCounted, unfinished_in};

use crate::bit_sets::BitSet;
use crate::counts::{is_finished, moved, refresh, refresh_all, shift};
use crate::tasks::RowTask;
use saga_case::{Answer, StepState};
use saga_def::Definition;
use saga_history::{Transition, Turn, is_busy, is_off, is_standing};
use std::alloc::{AllocError, Global};
use std::marker::Model;

/// A saga: its definition, the state of each step, its goal, its turn, the numbers of misses, and whether the saga was
/// aborted. The goal has a truth value for each step. The numbers of misses are those of each step and of each
/// compensation.
///
/// In addition, the row has for each step: the number of its needs that are not met, the number of dependants that
/// prevent its compensation, and whether it may start while the saga is going. It also has the number of busy steps,
/// and the number of steps that are not as the goal requires. These tables take a few bytes for each step. The
/// definition provides the neighbors. [`Row::new`] allocates all memory.
#[derive(Drop)]
pub struct Row<'d> {
    definition: &'d Definition,
    states: Vec<StepState>,
    goal: Vec<bool>,
    turn: Turn,
    misses: Vec<u8>,
    undo_misses: Vec<u8>,
    aborted: bool,
    unmet: Vec<u16>,
    held: Vec<u16>,
    busy: usize,
    unfinished: usize,
    ready: BitSet,
}

impl<'d> Model for Row<'d> {
    ghost use Rattle.saga_rows.specs.Row.{Row};
    ghost use Rattle.saga_rows.specs.Tables.{IsKept};

    ghost Value = { Row };

    ghost view = { λ r. record {
      definition = r.definition.now;
      states = r.states.items;
      goal = r.goal.items;
      turn = r.turn;
      misses = r.misses.items;
      undo_misses = r.undo_misses.items;
      aborted = r.aborted;
    } };

    ghost invariant = { λ r. IsKept r.definition.now r.states.items r.goal.items r.misses.items
        r.undo_misses.items r.unmet.items r.held.items r.busy r.unfinished r.ready };
}

/// 1 for a missed action, and otherwise 0.
fn miss_in(t: Transition) -> u8
    ensures { result ≡ spec.miss_in t }
{
    match t {
        Transition::Missed => 1,
        _ => 0,
    }
}

/// 1 for a missed compensation, and otherwise 0.
fn undo_miss_in(t: Transition) -> u8
    ensures { result ≡ spec.undo_miss_in t }
{
    match t {
        Transition::UndoMissed => 1,
        _ => 0,
    }
}

/// The number of steps that are not as the goal requires. Takes time linear in the steps.
fn count_unfinished(definition: &Definition, states: &[StepState], goal: &[bool]) -> usize
    requires states { length states.now ≡ length definition.now.steps }
    requires goal { length goal.now ≡ length definition.now.steps }
    ensures { result ≡ unfinished_in definition.now states.now goal.now }
{
    let count = definition.steps();
    let mut unfinished = 0;
    for s in 0..count {
        unfinished += usize::from(!is_finished(goal[s], states[s]));
    }
    unfinished
}

/// The number of needs of each step.
fn count_needs(alloc: Global, definition: &Definition) -> Result<Vec<u16>, AllocError>
    ensures sized { IfOk result (λ counts. length counts.items ≡ length definition.now.steps) }
    ensures each { IfOk result (λ counts. (s : ℕ) → s < length definition.now.steps
        → slice_index counts.items s ≡ length (needs_of definition.now s)) }
{
    let mut counts = Vec::new(alloc);
    for s in 0..definition.steps() as u16 {
        counts.push(definition.needs_of(s).len() as u16)?;
    }
    Ok(counts)
}

impl<'d> Row<'d> {
    ghost use Rattle.saga_rows.specs.Row.{FitsIn, HasRoom, IsFirstOfRow, IsSized, MayPlan, MayRun, MayUndo, RowAllowsNone, RowIsEnded, new_row, row_aborting, row_adopting, row_after};
    ghost use Rattle.saga_rows.specs.Rows.{is_over};

    /// A saga without changes. Allocates all its memory.
    pub fn new(alloc: Global, definition: &'d Definition) -> Result<Row<'d>, AllocError>
        ensures { IfOk result (λ row. row ≡ new_row definition.now) }
    {
        let count = definition.steps();
        let states = vec![in alloc; StepState::Waiting; count]?;
        let goal = vec![in alloc; true; count]?;
        let unmet = count_needs(alloc, definition)?;
        let held: Vec<u16> = vec![in alloc; 0; count]?;
        let mut ready = BitSet::new(alloc, count)?;
        let misses: Vec<u8> = vec![in alloc; 0; count]?;
        let undo_misses: Vec<u8> = vec![in alloc; 0; count]?;
        refresh_all(&states, &goal, &unmet, &held, &mut ready);
        let unfinished = count_unfinished(definition, &states, &goal);
        Ok(Row {
            definition,
            states,
            goal,
            turn: Turn::Going,
            misses,
            undo_misses,
            aborted: false,
            unmet,
            held,
            busy: 0,
            unfinished,
            ready,
        })
    }

    /// A copy of the row. This takes less time than to construct it from its definition.
    pub fn copy(&self, alloc: Global) -> Result<Row<'d>, AllocError>
        ensures { IfOk result (λ row. row ≡ self.now) }
    {
        Ok(Row {
            definition: self.definition,
            states: self.states.to_vec(alloc)?,
            goal: self.goal.to_vec(alloc)?,
            turn: self.turn,
            misses: self.misses.to_vec(alloc)?,
            undo_misses: self.undo_misses.to_vec(alloc)?,
            aborted: self.aborted,
            unmet: self.unmet.to_vec(alloc)?,
            held: self.held.to_vec(alloc)?,
            busy: self.busy,
            unfinished: self.unfinished,
            ready: self.ready.copy(alloc)?,
        })
    }

    /// The number of steps.
    pub fn steps(&self) -> usize
        ensures count { result ≡ length self.now.definition.steps }
        ensures sized { IsSized self.now }
    {
        self.definition.steps()
    }

    /// Sets the state of a step. Takes time linear in its neighbors.
    fn enter(&mut self, s: u16, state: StepState)
        requires { s < length self.old.definition.steps }
        ensures { self.new ≡ record self.old { states = slice_set self.old.states s state } }
    {
        let definition = self.definition;
        let users = definition.needed_by(s);
        let needs = definition.needs_of(s);
        let old = self.states[s as usize];
        let wanted = self.goal[s as usize];
        self.states[s as usize] = state;
        shift(
            &mut self.unmet,
            users,
            !is_standing(old),
            !is_standing(state),
        );
        shift(&mut self.held, needs, !is_off(old), !is_off(state));
        self.busy = moved(self.busy, is_busy(old), is_busy(state));
        self.unfinished = moved(
            self.unfinished,
            !is_finished(wanted, old),
            !is_finished(wanted, state),
        );
        refresh(
            &self.states,
            &self.goal,
            &self.unmet,
            &self.held,
            &mut self.ready,
            &[s],
        );
        refresh(
            &self.states,
            &self.goal,
            &self.unmet,
            &self.held,
            &mut self.ready,
            users,
        );
        refresh(
            &self.states,
            &self.goal,
            &self.unmet,
            &self.held,
            &mut self.ready,
            needs,
        );
    }

    /// Applies a transition of a step. Takes time linear in its neighbors.
    pub fn apply(&mut self, s: u16, t: Transition)
        requires step { s < length self.old.definition.steps }
        requires room { HasRoom self.old s t }
        ensures { self.new ≡ row_after self.old s t }
    {
        self.enter(s, t.state_after());
        self.misses[s as usize] += miss_in(t);
        self.undo_misses[s as usize] += undo_miss_in(t);
        self.turn = t.turn_after(self.turn);
    }

    /// Sets the goal to a set of steps. Takes time linear in the steps.
    fn set_goal(&mut self, kept: &[bool])
        requires { length kept.now ≡ length self.old.definition.steps }
        ensures { self.new ≡ record self.old { goal = kept.now } }
    {
        self.goal.copy_from_slice(kept);
        refresh_all(
            &self.states,
            &self.goal,
            &self.unmet,
            &self.held,
            &mut self.ready,
        );
        self.unfinished = count_unfinished(self.definition, &self.states, &self.goal);
    }

    /// Applies the adoption of an answer. Takes time linear in the steps.
    pub fn adopt(&mut self, answer: &Answer)
        requires { FitsIn self.old answer.now }
        ensures { self.new ≡ row_adopting self.old answer.now }
    {
        match answer {
            Answer::Plan(plan) => {
                self.set_goal(plan.kept.as_slice());
                self.turn = Turn::Going;
            }
            Answer::Blocked(_) => {
                self.turn = Turn::Stuck;
            }
        }
    }

    /// Applies an abort of the saga.
    pub fn abort(&mut self)
        ensures { self.new ≡ row_aborting self.old }
    {
        self.turn = self.turn.after_abort();
        self.aborted = true;
    }

    /// Sets the turn: a plan is started or dropped.
    pub fn turn_to(&mut self, turn: Turn)
        ensures { self.new ≡ record self.old { turn = turn } }
    {
        self.turn = turn;
    }

    /// The definition.
    pub fn definition(&self) -> &'d Definition
        ensures { result.now ≡ self.now.definition }
    {
        self.definition
    }

    /// The state of each step.
    pub fn states(&self) -> &[StepState]
        ensures { result.now ≡ self.now.states }
    {
        self.states.as_slice()
    }

    /// The goal: a truth value for each step.
    pub fn goal(&self) -> &[bool]
        ensures { result.now ≡ self.now.goal }
    {
        self.goal.as_slice()
    }

    /// The number of misses of each step.
    pub fn misses(&self) -> &[u8]
        ensures { result.now ≡ self.now.misses }
    {
        self.misses.as_slice()
    }

    /// The number of misses of each compensation.
    pub fn undo_misses(&self) -> &[u8]
        ensures { result.now ≡ self.now.undo_misses }
    {
        self.undo_misses.as_slice()
    }

    /// The turn of the saga.
    pub fn turn(&self) -> Turn
        ensures { result ≡ self.now.turn }
    {
        self.turn
    }

    /// Whether the saga was aborted.
    pub fn is_aborted(&self) -> bool
        ensures { result ≡ self.now.aborted }
    {
        self.aborted
    }

    /// Whether the action of a step may start.
    pub fn may_run(&self, s: u16) -> bool
        requires { s < length self.now.definition.steps }
        ensures { IsTrue result ↔ MayRun self.now s }
    {
        if self.turn != Turn::Going {
            return false;
        }
        if self.states[s as usize] != StepState::Waiting {
            return false;
        }
        self.ready.has(s as usize)
    }

    /// Whether the compensation of a step may start.
    pub fn may_undo(&self, s: u16) -> bool
        requires { s < length self.now.definition.steps }
        ensures { IsTrue result ↔ MayUndo self.now s }
    {
        if self.turn != Turn::Going {
            return false;
        }
        if !self.states[s as usize].commits() {
            return false;
        }
        self.ready.has(s as usize)
    }

    /// Whether a plan may start.
    pub fn may_plan(&self) -> bool
        ensures { IsTrue result ↔ MayPlan self.now }
    {
        if self.turn != Turn::Draining {
            return false;
        }
        self.busy == 0
    }

    /// Whether the saga is ended: it is going, and each step is as the goal requires.
    pub fn is_ended(&self) -> bool
        ensures { IsTrue result ↔ RowIsEnded self.now }
    {
        self.turn == Turn::Going && self.unfinished == 0
    }

    /// Whether the saga is ended or stuck.
    pub fn is_over(&self) -> bool
        ensures { result ≡ is_over self.now }
    {
        match self.turn {
            Turn::Going => self.unfinished == 0,
            Turn::Stuck => true,
            Turn::Draining | Turn::Planning => false,
        }
    }

    /// The first task that is allowed, in the order of the steps.
    pub fn first(&self) -> Option<RowTask>
        ensures { MatchOption result (RowAllowsNone self.now) (λ t. IsFirstOfRow self.now t) }
    {
        match self.turn {
            Turn::Going => match self.ready.first() {
                None => None,
                Some(s) => match self.states[s] {
                    StepState::Waiting => Some(RowTask::Run(s as u16)),
                    _ => Some(RowTask::Undo(s as u16)),
                },
            },
            Turn::Draining => {
                if self.busy == 0 {
                    Some(RowTask::Plan)
                } else {
                    None
                }
            }
            Turn::Planning => None,
            Turn::Stuck => None,
        }
    }
}
