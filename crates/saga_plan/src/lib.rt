//! The planner. For a case it returns a minimum-cost plan with its certificate, or a chain that shows that no set of
//! steps is allowed.
//!
//! A minimum-cost set of steps is a minimum cut of the network of the case (J.-C. Picard, 1976). The planner computes a
//! maximum flow, and keeps the steps that the source still reaches in the residual network. This set is the smallest
//! minimum-cost set.
//!
//! This example plans a case and returns the cost of the plan:
//!
//! ```
//! match plan(alloc, case)? {
//!     // `kept` has a truth value for each step. All other committed steps are to be compensated.
//!     Answer::Plan(plan) => Ok(Some(plan.cost)),
//!     // Steps each of which needs the next: the first cannot be dropped, and the last cannot be kept.
//!     Answer::Blocked(_chain) => Ok(None),
//! }
//! ```
#![tactic(auto)]

mod laws;
mod planning;
mod plans;

pub use laws::plan_laws;
pub use planning::{plan, plan_counted};
