//! Workers: seats of a desk that run sagas concurrently. An actor runs the actions and compensations of steps.
//!
//! [`run_all`] opens the requested sagas, lets the workers run them to their end, and returns the books of all shards.
//! [`work`] is one worker at one seat.
//!
//! In this example, workers run all requested sagas with an [`Actor`]:
//!
//! ```
//! // Three sagas of definition 0, by four workers over two shards; `Quick` is an `Actor`.
//! let asks = [0, 0, 0];
//! let run = run_all(rt, alloc, shelf, &asks, 4, 2, &Quick).ok()?;
//! // Two books, whose histories are legal, each saga ended or stuck.
//! run.stopped.is_none().then_some(run.books.len())
//! ```
#![tactic(auto)]

mod actors;
mod bells;
mod faults;
mod opening;
mod runs;
mod workers;

pub use actors::Actor;
pub use bells::Bell;
pub use faults::{FinishFault, RunFault, Stop};
pub use runs::{Run, run_all};
pub use workers::work;
