//! Definition files: TOML texts that contain definitions. A contract states exactly which definition a text contains.
//!
//! `docs/FORMATS.md` of the repository has the format. [`read_definition`] uses the tree that `toml` reads, so two
//! spellings of the same tree are the same definition.
//!
//! `TRIP` is such a text:
//!
//! ```
//! match read_definition(alloc, TRIP.as_bytes()) {
//!     Ok(trip) => Some(trip),
//!     // The first fault, as the program prints it: bad-key, cycle and so on.
//!     Err(fault) => {
//!         let _word = fault.word();
//!         None
//!     }
//! }
//! ```
#![tactic(auto)]

mod definitions;
mod documents;
mod drafts;
mod faults;
mod keys;
mod kinds;
mod laws;
mod limits;
mod numbers;
mod steps;

pub use definitions::read_definition;
pub use faults::TextFault;
pub use laws::reading_laws;
pub use limits::MAX_DEFINITION;
