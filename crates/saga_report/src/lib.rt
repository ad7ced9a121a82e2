//! The report of a run: for each saga its phase, the states of its steps, and the number and cost of its plans.
//!
//! `docs/FORMATS.md` of the repository has the format. The report depends only on the histories, and is made in one
//! pass.
#![tactic(auto)]

mod entries;
mod follow;
mod lines;
mod reports;
mod sagas;

pub use reports::{CountedReport, report, report_counted};
