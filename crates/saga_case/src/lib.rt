//! A case is the input of the planner: the definition of a saga in which no step is busy, the state of each step, and
//! whether the saga was aborted. This crate defines the cost of each step and of a set of steps, which sets are
//! allowed, and when an answer to a case is right.
//!
//! In this example, a trip has the steps flight, hotel and tour, and the tour has failed:
//!
//! ```
//! let mut states = Vec::new(alloc);
//! for state in [
//!     StepState::Committed,
//!     StepState::Committed,
//!     StepState::Failed,
//! ] {
//!     states.push(state).ok()?;
//! }
//! let case = Case::new(trip, states).ok()?;
//! let none = vec![in alloc; false; trip.steps()].ok()?;
//! let all = vec![in alloc; true; trip.steps()].ok()?;
//! // Both are never: the flight cannot be undone, and the tour has failed.
//! Some((case.cost(&none), case.cost(&all)))
//! ```
#![tactic(auto)]

mod amounts;
mod answers;
mod cases;
mod laws;
mod lists;
mod prices;
mod states;

pub use amounts::Amounts;
pub use answers::{Answer, Plan};
pub use cases::{Case, CaseFault};
pub use laws::{
    begins_nothing_once_aborted, fault_laws, keeps_to_the_states, keeps_what_cannot_be_undone,
    least_laws, leaves_all_out_for_free, limit_laws,
};
pub use lists::{Chain, Marks};
pub use prices::MAX_STEP_PRICE;
pub use states::StepState;
