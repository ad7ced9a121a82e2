//! The book: the state machine of many sagas. It has the sagas by their numbers and a history with
//! one event for each accepted call.
//!
//! After every sequence of calls on a [`Book`], its history is legal. So the main theorem, which is
//! `headline` of `saga_history`, holds for that history.
//!
//! This example opens a saga and executes it to its end. The shelf is the list of definitions; here
//! it has one definition, with three steps:
//!
//! ```
//! let mut book = Book::new(alloc, shelf, 0, 1);
//! let saga = book.open(0).ok()?;
//! for _ in 0..3 {
//!     if let Some(Task::Run(saga, step)) = book.next() {
//!         book.take_run(saga, step).ok()?;
//!         // Here the program runs the step's action.
//!         book.report_run(saga, step, Outcome::Done).ok()?;
//!     }
//! }
//! (book.phase(saga) == Some(Phase::Ended)).then_some(book.history().len())
//! ```
#![tactic(auto)]

mod books;
mod journals;
mod laws;
mod numbers;
mod refusals;
mod sagas;

pub use books::{Book, MAX_SAGAS};
pub use laws::refusal_laws;
pub use refusals::{
    AdoptRefusal, AdoptRefused, DropRefusal, OpenRefusal, ReplayRefusal, ReportRefusal,
    SagaRefusal, TakeRefusal,
};
pub use sagas::Saga;
