//! The numbers of the sagas of a book, and of their tasks.
ghost use Rattle.std.specs.Prelude.{ℕ, ◌≡◌, ◌<◌, ◌≤◌, ◌↔◌, IsTrue, MatchOption, length};
ghost use Rattle.saga_core.specs.Book.{number};
ghost use Rattle.saga_core.specs.Tasks as tasks;
ghost use Rattle.saga_rows.specs.Row.{RowAllows};
ghost use Rattle.saga_rows.specs.Limits.{max_rows};

use saga_history::Task;
use saga_rows::{Row, RowTask, Rows};

/// Returns the index of the row of a saga, by the number of the saga.
pub fn index_of(rows: &Rows, first: u32, stride: u32, saga: u32) -> Option<usize>
    requires { first < stride }
    ensures { MatchOption result ((k : ℕ) → k < length rows.now → saga ≡ number first stride k → ⊥)
        (λ k. (k < length rows.now) × (saga ≡ number first stride k)) }
{
    if saga < first {
        return None;
    }
    if (saga - first) % stride != 0 {
        return None;
    }
    let index = (saga - first) / stride;
    if index as usize >= rows.len() {
        return None;
    }
    Some(index as usize)
}

/// Returns the number of the saga of the row at an index.
pub fn number_of(first: u32, stride: u32, index: usize) -> u32
    requires begins { first < stride }
    requires near { stride ≤ 16 }
    requires few { index ≤ max_rows }
    ensures { result ≡ number first stride index }
{
    first + index as u32 * stride
}

/// Returns the task of a row as a task of its saga.
pub fn task_of(saga: u32, task: RowTask) -> Task
    ensures { result ≡ tasks.task_of saga task }
{
    match task {
        RowTask::Run(step) => Task::Run(saga, step),
        RowTask::Undo(step) => Task::Undo(saga, step),
        RowTask::Plan => Task::Plan(saga),
    }
}

/// Returns the number of the saga of a task.
pub fn saga_of(task: Task) -> u32
    ensures { result ≡ tasks.saga_of_task task }
{
    match task {
        Task::Run(saga, _) | Task::Undo(saga, _) | Task::Plan(saga) => saga,
    }
}

/// Returns whether a row allows a task of its saga.
pub fn allows(row: &Row, task: Task) -> bool
    ensures { IsTrue result ↔ RowAllows row.now (tasks.row_task task) }
{
    match task {
        Task::Run(_, step) => (step as usize) < row.steps() && row.may_run(step),
        Task::Undo(_, step) => (step as usize) < row.steps() && row.may_undo(step),
        Task::Plan(_) => row.may_plan(),
    }
}
