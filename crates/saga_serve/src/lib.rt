//! The loop of `sagas drive`. It serves another program, which executes the actions of sagas.
//!
//! [`drive_texts`] reads definitions, continues from a log if there is one, and replies to requests
//! until standard input ends. Each request is one line. An implementation of [`Outside`] gives the
//! files and streams.
//!
//! With a log, [`drive_texts`] calls [`drive_log`]. The contract of [`drive_log`] says three things
//! of a drive that ends. Each reply that was written rests on the log of the book that has answered
//! it. Each reply survives a crash. The replies are those to all requests that arrived, each once,
//! in order.
//!
//! [`drive_lines`] writes no log. Before each reply it shows the log lines of that reply, for a
//! program that stores them. It calls [`show_log`], whose contract says which replies and lines it
//! writes: those to all requests that arrived, each once, in order.
#![tactic(auto)]

mod besides;
mod endings;
mod growing;
mod inputs;
mod kinds;
mod laws;
mod limits;
mod lines;
mod outside;
mod pending;
mod shelves;
mod shown;
mod sides;
mod starts;
mod stops;
mod streams;
mod talks;

pub use endings::{Ending, Stream};
pub use kinds::Books;
pub use laws::{rests_laws, shelf_laws};
pub use limits::MAX_BESIDE;
pub use lines::{drive_lines, show_log};
pub use outside::{FileFault, OpenFault, Outside};
pub use sides::{Ahead, Plain};
pub use starts::{LogOf, drive_log, drive_texts};
pub use stops::Halt;
pub use streams::{Replies, Requests};
