//! The auditor. It decides whether a history obeys the rules, from only the history and the
//! definitions.
//!
//! [`audit`] returns `Yes` if and only if a history is legal. The main theorem, which is `headline`
//! of `saga_history`, then holds for it. Otherwise it returns the first event that is not allowed,
//! and why. [`audit_with`] returns the same with several threads.
//!
//! The auditor follows one saga after the other, by links between the events of each saga. So it
//! has the state tables of only one saga at a time.
//!
//! This example returns the index of the first event that is not allowed, if there is one:
//!
//! ```
//! match audit(alloc, shelf, events)? {
//!     AuditAnswer::Yes { .. } => Ok(None),
//!     // The index of the first event that the rules do not allow after the events before it.
//!     AuditAnswer::No { position, .. } => Ok(Some(position)),
//! }
//! ```
#![tactic(auto)]

mod answers;
mod audits;
mod chains;
mod decisions;
mod reasons;
mod sagas;

pub use answers::AuditAnswer;
pub use audits::{audit, audit_with};
pub use reasons::Reason;
