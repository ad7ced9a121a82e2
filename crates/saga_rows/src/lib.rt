//! The state of one saga after each change: tables of its states, goal and turn from which the tasks that may start
//! follow without a search. And the rows of several sagas, with the first task of all.
//!
//! A row applies every change that it is given: the caller checks first whether a change is allowed.
#![tactic(auto)]

mod bit_sets;
mod counts;
mod decisions;
mod laws;
mod row;
mod rows;
mod tasks;

pub use laws::limit_laws;
pub use row::Row;
pub use rows::{MAX_ROWS, Rows};
pub use tasks::RowTask;
