//! A desk: several seats work concurrently on the books of shards, each protected by its own lock. Seats hold a receipt
//! for each event that they add.
//!
//! The methods of [`Shard`] document the effect of a call under a lock. [`Desk::finish`] compares all receipts with all
//! histories. So the books that it returns record exactly what the seats did, in one legal history.
//!
//! One worker at one seat claims a task and reports it. Each of its events has a receipt:
//!
//! ```
//! let (desk, mut seats) = Desk::open(alloc, shelf, 1, 1).ok()?;
//! let seat = seats.first_mut()?;
//! desk.open_saga(rt, seat, 0, 0).ok()?;
//! if let Claim::Run(job) = desk.claim(rt, seat).ok()? {
//!     // Here a worker runs the step's action. It holds no lock.
//!     desk.report(rt, seat, job, Outcome::Done).ok()?;
//! }
//! Some(seat.receipts().len())
//! ```
#![tactic(auto)]

mod agreement;
mod desks;
mod jobs;
mod laws;
mod policies;
mod receipts;
mod refusals;
mod rounds;
mod ruled;
mod shards;
mod signs;

pub use desks::{Desk, FinishRefused};
pub use jobs::{Claim, Job, PlanJob};
pub use laws::merge_law;
pub use policies::Policy;
pub use receipts::Receipt;
pub use refusals::{AdoptionRefused, EndRefusal, GiveBackRefused, ReportRefused};
pub use shards::{Seat, Shard};
