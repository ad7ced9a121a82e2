//! The rows of several sagas, and the first task of all.
ghost use Rattle.std.specs.Prelude.{ℕ, Bool, List, ◌≡◌, ◌<◌, ◌≤◌, ◌++◌, ◌∷◌, [], ◌↔◌, true, IsTrue, IfOk, IfErr, MatchOption, length, slice_set};
ghost use Rattle.std.specs.List.{count_by};
ghost use Rattle.saga_rows.specs.Limits.{max_rows};
ghost use Rattle.saga_rows.specs.Row.{Row, RowAllowsNone, new_row, row_turning, row_after, row_adopting, row_aborting, HasRoom, FitsIn};
ghost use Rattle.saga_rows.specs.Rows.{AreMarked, IsCountBut, IsMarkOf, IsNext, is_open, is_over, row_at};

use crate::bit_sets::BitSet;
use crate::counts::moved;
use crate::row::Row;
use crate::tasks::RowTask;
use saga_case::Answer;
use saga_def::Definition;
use saga_history::{Transition, Turn};
use std::alloc::{AllocError, Global};
use std::marker::Model;

/// The maximum number of rows in [`Rows`].
pub const MAX_ROWS: usize = 1000;

/// Rows, which contracts see as a list. In addition, a mark for each row in which a task is allowed, and the number of
/// rows that are not over.
#[derive(Drop)]
pub struct Rows<'d> {
    rows: Vec<Row<'d>>,
    tasks: BitSet,
    open_rows: usize,
}

impl<'d> Model for Rows<'d> {
    ghost use Rattle.std.specs.Prelude.{List};
    ghost use Rattle.saga_rows.specs.Row.{Row};
    ghost use Rattle.saga_rows.specs.Rows.{AreRows};

    ghost Value = { List Row };

    ghost view = { λ r. r.rows.items };

    ghost invariant = { λ r. AreRows r.rows.items r.tasks r.open_rows };
}

/// Whether a task is allowed in a saga.
fn has_task(row: &Row) -> bool
    ensures { IsMarkOf row.now result }
{
    row.first().is_some()
}

/// Recomputes the mark of one row.
fn mark(rows: &[Row], tasks: &mut BitSet, i: usize)
    requires within { i < length rows.now }
    requires others { AreMarked rows.now tasks.old i }
    ensures { AreMarked rows.now tasks.new (length rows.now) }
{
    let some = has_task(&rows[i]);
    tasks.set(i, some);
}

/// The number of open rows after one row changed.
fn recount(rows: &[Row], open_rows: usize, i: usize, was: bool) -> usize
    requires within { i < length rows.now }
    requires few { length rows.now ≤ max_rows }
    requires counted { IsCountBut rows.now i was open_rows }
    ensures { result ≡ count_by is_open rows.now }
{
    let row = &rows[i];
    moved(open_rows, was, !row.is_over())
}

/// Extends the set by the mark of one more row.
fn make_room(tasks: &mut BitSet, rows: &[Row]) -> Result<(), AllocError>
    requires { AreMarked rows.now tasks.old (length rows.now) }
    ensures marked { AreMarked rows.now tasks.new (length rows.now) }
    ensures room { IfOk result (λ _. length rows.now < length tasks.new) }
{
    if tasks.len() == rows.len() {
        tasks.push()?;
    }
    Ok(())
}

impl<'d> Rows<'d> {
    /// No rows. Takes no memory.
    pub fn new(alloc: Global) -> Rows<'d>
        ensures { result ≡ [] }
    {
        Rows {
            rows: Vec::new(alloc),
            tasks: BitSet::empty(alloc),
            open_rows: 0,
        }
    }

    /// Adds a row for a saga without changes. Allocates all its memory. If an allocation fails, the rows are unchanged.
    pub fn open(&mut self, alloc: Global, definition: &'d Definition) -> Result<(), AllocError>
        requires { length self.old < max_rows }
        ensures ok { IfOk result (λ _. self.new ≡ self.old ++ new_row definition.now ∷ []) }
        ensures err { IfErr result (λ _. self.new ≡ self.old) }
    {
        let row = Row::new(alloc, definition)?;
        let i = self.rows.len();
        let is_open = !row.is_over();
        make_room(&mut self.tasks, &self.rows)?;
        self.rows.push(row)?;
        mark(&self.rows, &mut self.tasks, i);
        self.open_rows += usize::from(is_open);
        Ok(())
    }

    /// Removes the last row.
    pub fn close(&mut self)
        requires { 0 < length self.old }
        ensures { (rows : List Row) (row : Row) → self.old ≡ rows ++ row ∷ [] → self.new ≡ rows }
    {
        let i = self.rows.len() - 1;
        self.tasks.set(i, false);
        let last = self.rows.take_last();
        self.open_rows = moved(self.open_rows, !last.is_over(), false);
    }

    /// Applies a transition of a step of a saga.
    pub fn apply(&mut self, i: usize, s: u16, t: Transition)
        requires within { i < length self.old }
        requires step { s < length (row_at self.old i).definition.steps }
        requires room { HasRoom (row_at self.old i) s t }
        ensures { self.new ≡ slice_set self.old i (row_after (row_at self.old i) s t) }
    {
        let row = &mut self.rows[i];
        let was = !row.is_over();
        row.apply(s, t);
        mark(&self.rows, &mut self.tasks, i);
        self.open_rows = recount(&self.rows, self.open_rows, i, was);
    }

    /// Applies the adoption of an answer in a saga.
    pub fn adopt(&mut self, i: usize, answer: &Answer)
        requires within { i < length self.old }
        requires fits { FitsIn (row_at self.old i) answer.now }
        ensures { self.new ≡ slice_set self.old i (row_adopting (row_at self.old i) answer.now) }
    {
        let row = &mut self.rows[i];
        let was = !row.is_over();
        row.adopt(answer);
        mark(&self.rows, &mut self.tasks, i);
        self.open_rows = recount(&self.rows, self.open_rows, i, was);
    }

    /// Applies an abort of a saga.
    pub fn abort(&mut self, i: usize)
        requires { i < length self.old }
        ensures { self.new ≡ slice_set self.old i (row_aborting (row_at self.old i)) }
    {
        let row = &mut self.rows[i];
        let was = !row.is_over();
        row.abort();
        mark(&self.rows, &mut self.tasks, i);
        self.open_rows = recount(&self.rows, self.open_rows, i, was);
    }

    /// Sets the turn of a saga: a plan is started or dropped.
    pub fn turn_to(&mut self, i: usize, turn: Turn)
        requires { i < length self.old }
        ensures { self.new ≡ slice_set self.old i (row_turning (row_at self.old i) turn) }
    {
        let row = &mut self.rows[i];
        let was = !row.is_over();
        row.turn_to(turn);
        mark(&self.rows, &mut self.tasks, i);
        self.open_rows = recount(&self.rows, self.open_rows, i, was);
    }

    /// One row.
    pub fn row(&self, i: usize) -> &Row<'d>
        requires { i < length self.now }
        ensures { result.now ≡ row_at self.now i }
    {
        &self.rows[i]
    }

    /// The number of rows.
    pub fn len(&self) -> usize
        ensures { result ≡ length self.now }
    {
        self.rows.len()
    }

    /// Whether each saga is ended or stuck. Reads no row.
    pub fn are_over(&self) -> bool
        ensures { IsTrue result
            ↔ ((i : ℕ) → i < length self.now → is_over (row_at self.now i) ≡ true) }
    {
        self.open_rows == 0
    }

    /// The first task of all, by row and then by step. Reads only the row that has it.
    pub fn next(&self) -> Option<(usize, RowTask)>
        ensures { MatchOption result
            ((i : ℕ) → i < length self.now → RowAllowsNone (row_at self.now i))
            (λ r. IsNext self.now r.0 r.1) }
    {
        match self.tasks.first() {
            None => None,
            Some(i) => {
                let row = &self.rows[i];
                match row.first() {
                    None => None,
                    Some(task) => Some((i, task)),
                }
            }
        }
    }
}
