//! Scripts: the lines of a text state in advance how the actions and compensations of sagas end.
//!
//! `docs/FORMATS.md` of the repository has the format. Reading a script builds a table, so a look-up does not scan the
//! lines. A script is an actor: workers can run sagas with it.
#![tactic(auto)]

mod actors;
mod endings;
mod faults;
mod laws;
mod limits;
mod scripts;
mod statements;

pub use faults::ScriptFault;
pub use laws::limit_laws;
pub use limits::MAX_SCRIPT;
pub use scripts::Script;
