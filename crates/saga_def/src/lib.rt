//! The definition of a saga: its steps with their costs and numbers of tries, and which step needs which.
//!
//! [`Definition::build`] is the only constructor of a [`Definition`]. Each definition is sound: it is within the
//! limits, names are valid and distinct, needs are between known steps and distinct, costs and numbers of tries are in
//! range, and no step precedes itself.
//!
//! In this example, a hotel needs a flight:
//!
//! ```
//! let mut steps = Vec::new(alloc);
//! for name in ["flight", "hotel"] {
//!     let name = Text::new(String::from_str(alloc, name).ok()?);
//!     let (run, undo, skip, keep) = (Of(0), Of(2), Of(0), Of(5));
//!     steps
//!         .push(Step {
//!             name,
//!             run,
//!             undo,
//!             skip,
//!             keep,
//!             tries: 1,
//!             undo_tries: 1,
//!         })
//!         .ok()?;
//! }
//! // The hotel needs the flight.
//! let mut needs = Vec::new(alloc);
//! needs.push(Need { step: 1, on: 0 }).ok()?;
//! let name = Text::new(String::from_str(alloc, "trip").ok()?);
//! Definition::build(alloc, name, steps, needs).ok()
//! ```
#![tactic(auto)]

mod adjacency;
mod cycles;
mod definitions;
mod faults;
mod groups;
mod laws;
mod limits;
mod rules;
mod steps;
mod texts;

pub use definitions::Definition;
pub use faults::DefFault;
pub use laws::{fault_laws, limit_laws};
pub use limits::{MAX_NAME, MAX_NEEDS, MAX_PRICE, MAX_STEPS, MAX_TRIES};
pub use rules::is_name;
pub use steps::{Need, Price, Step};
pub use texts::Text;
