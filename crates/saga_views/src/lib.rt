//! Read-only views of a book: the states of its sagas, the tasks that were started and not yet reported, the tasks that
//! may start, and counts.
//!
//! Each view is the text of a reply of `sagas drive`, as `docs/FORMATS.md` of the repository specifies it. This crate
//! does not read requests.
#![tactic(auto)]

mod busy;
mod laws;
mod lists;
mod phases;
mod ready;
mod shown;
mod status;
mod tasks;
mod words;

pub use busy::busy_text;
pub use laws::limit_laws;
pub use lists::list_text;
pub use ready::ready_text;
pub use shown::show_text;
pub use status::status_text;
pub use tasks::taken_text;
pub use words::truth_text;
