//! Queries about the sagas of a book. No query allocates memory. Only `next_from` visits the sagas
//! one by one, and none visits the steps.
ghost use Rattle.std.specs.Prelude.{◌≡◌, ◌<◌, ◌≤◌, ◌+◌, ◌*◌, ◌↔◌, IfSome, IsTrue, MatchOption, Some, length};
ghost use Rattle.saga_rows.specs.Limits.{max_rows};
ghost use Rattle.saga_history.specs.Changes.{past};
ghost use Rattle.saga_history.specs.Tasks.{TaskIsAllowed};
ghost use Rattle.saga_core.specs.Book as book;
ghost use Rattle.saga_core.specs.Refusals.{IsUnknown};
ghost use Rattle.saga_core.specs.Saga.{HasSaga};
ghost use Rattle.saga_core.specs.Tasks.{AllAreOver, HasGoal, HasMisses, HasNoStep, HasState, HasUndoMisses, IsDefinedBy, IsFirstTaskFrom, NoTaskIsAllowedFrom, StandsAt, WasAborted, saga_of_task, MayStart};

use crate::books::Book;
use crate::numbers::{allows, index_of, number_of, saga_of, task_of};
use crate::sagas::Saga;
use saga_case::StepState;
use saga_def::Definition;
use saga_history::{Kind, Phase, Task};

impl<'d> Book<'d> {
    /// Returns the handle of a saga, or `None` if there is no saga with this number.
    pub fn saga(&self, number: u32) -> Option<Saga<'_, 'd>>
        ensures { MatchOption result (IsUnknown self.now number)
            (λ saga. HasSaga self.now number saga) }
    {
        let index = index_of(&self.rows, self.first, self.stride, number)?;
        Some(Saga::new(number, self, self.rows.row(index)))
    }

    /// Returns the handle of the saga at an index, in the order of opening, from 0.
    pub fn nth(&self, index: usize) -> Saga<'_, 'd>
        requires { index < book.sagas_in self.now.history }
        ensures { HasSaga self.now (book.number self.now.first self.now.stride index) result }
    {
        let number = number_of(self.first, self.stride, index);
        Saga::new(number, self, self.rows.row(index))
    }

    /// Returns the handle of a saga, or `None` if there is no such saga or it has no such step.
    fn saga_at(&self, number: u32, step: u16) -> Option<Saga<'_, 'd>>
        ensures { MatchOption result (HasNoStep self.now number step)
            (λ saga. HasSaga self.now number saga × (step < length saga.definition.steps)) }
    {
        let saga = self.saga(number)?;
        if saga.has_step(step) {
            Some(saga)
        } else {
            None
        }
    }

    /// Returns the state of a step, or `None` if there is no such saga or step.
    pub fn state(&self, saga: u32, step: u16) -> Option<StepState>
        ensures { MatchOption result (HasNoStep self.now saga step)
            (λ x. HasState self.now saga step x) }
    {
        Some(self.saga_at(saga, step)?.state(step))
    }

    /// Returns how many attempts of the action of a step failed with tries left, or `None` if there
    /// is no such saga or step.
    pub fn misses(&self, saga: u32, step: u16) -> Option<u8>
        ensures { MatchOption result (HasNoStep self.now saga step)
            (λ count. HasMisses self.now saga step count) }
    {
        Some(self.saga_at(saga, step)?.missed(Kind::Run, step))
    }

    /// Returns how many attempts of the compensation of a step failed with tries left, or `None` if
    /// there is no such saga or step.
    pub fn undo_misses(&self, saga: u32, step: u16) -> Option<u8>
        ensures { MatchOption result (HasNoStep self.now saga step)
            (λ count. HasUndoMisses self.now saga step count) }
    {
        Some(self.saga_at(saga, step)?.missed(Kind::Undo, step))
    }

    /// Returns whether a saga aims to keep a step, or `None` if there is no such saga or step. If
    /// the saga is not going forward to a goal, the result is false for every step.
    pub fn in_goal(&self, saga: u32, step: u16) -> Option<bool>
        ensures { MatchOption result (HasNoStep self.now saga step)
            (λ wanted. HasGoal self.now saga step wanted) }
    {
        Some(self.saga_at(saga, step)?.in_goal(step))
    }

    /// Returns the phase of a saga, or `None` if there is no such saga.
    pub fn phase(&self, saga: u32) -> Option<Phase>
        ensures { MatchOption result (IsUnknown self.now saga)
            (λ phase. StandsAt self.now saga phase) }
    {
        Some(self.saga(saga)?.phase())
    }

    /// Returns the phase of the saga at an index, in the order of opening, from 0.
    pub fn phase_at(&self, index: usize) -> Phase
        requires { index < book.sagas_in self.now.history }
        ensures { StandsAt self.now (book.number self.now.first self.now.stride index) result }
    {
        self.rows.row(index).phase()
    }

    /// Returns whether a saga was aborted, or `None` if there is no such saga.
    pub fn is_aborted(&self, saga: u32) -> Option<bool>
        ensures { MatchOption result (IsUnknown self.now saga)
            (λ a. WasAborted self.now saga a) }
    {
        Some(self.saga(saga)?.is_aborted())
    }

    /// Returns the definition of a saga, or `None` if there is no such saga.
    pub fn definition(&self, saga: u32) -> Option<&'d Definition>
        ensures { MatchOption result (IsUnknown self.now saga)
            (λ d. IsDefinedBy self.now saga d.now) }
    {
        Some(self.saga(saga)?.definition())
    }

    /// Returns how many sagas were opened.
    pub fn sagas(&self) -> usize
        ensures count { result ≡ book.sagas_in self.now.history }
        ensures few { result ≤ max_rows }
    {
        self.rows.len()
    }

    /// Returns the number that the next opened saga gets.
    pub fn next_number(&self) -> u32
        ensures { result
            ≡ book.number self.now.first self.now.stride (book.sagas_in self.now.history) }
    {
        number_of(self.first, self.stride, self.rows.len())
    }

    /// Returns whether each saga is ended or stuck.
    pub fn settled(&self) -> bool
        ensures { IsTrue result ↔ AllAreOver self.now }
    {
        self.rows.are_over()
    }

    /// Returns the first allowed task of the sagas from a number on, ordered by saga and then by
    /// step. Allocates no memory. Takes time linear in the number of sagas and visits no step.
    pub fn next_from(&self, saga: u32) -> Option<Task>
        ensures first { MatchOption result
            (NoTaskIsAllowedFrom self.now saga)
            (λ t. IsFirstTaskFrom self.now saga t) }
        ensures small { IfSome result (λ t. saga_of_task t < 16 * (max_rows + 1)) }
    {
        for index in 0..self.rows.len() {
            let number = number_of(self.first, self.stride, index);
            if number >= saga {
                if let Some(task) = self.rows.row(index).first() {
                    return Some(task_of(number, task));
                }
            }
        }
        None
    }

    /// Returns whether a task may start. Visits no other task.
    pub fn may_start(&self, task: Task) -> bool
        ensures { IsTrue result ↔ MayStart self.now task }
    {
        match index_of(&self.rows, self.first, self.stride, saga_of(task)) {
            None => false,
            Some(index) => allows(self.rows.row(index), task),
        }
    }

    /// Returns the definitions with which the book was made.
    pub fn shelf(&self) -> &'d [Definition]
        ensures { result.now ≡ self.now.shelf }
    {
        self.shelf
    }

    /// Returns the number of the first opened saga.
    pub fn first(&self) -> u32
        ensures value { result ≡ self.now.first }
        ensures begins { self.now.first < self.now.stride }
    {
        self.first
    }

    /// Returns the distance between the numbers of two sagas that are opened one after the other.
    pub fn stride(&self) -> u32
        ensures value { result ≡ self.now.stride }
        ensures near { self.now.stride ≤ 16 }
    {
        self.stride
    }
}
