//! A coordinator for programs in any language. It takes one request, which is a JSON object, and returns one reply with
//! the log lines of the events that the request added.
//!
//! `docs/FORMATS.md` of the repository specifies the requests and the replies. [`answer`] is the main function. It does
//! no I/O, so the caller decides when to write the lines to durable storage. [`audit_trail`] writes the log of a book
//! and audits it; it is proved that the audit accepts the log.
//!
//! An example with two requests:
//!
//! ```
//! let mut book = Book::new(alloc, shelf, 0, 1);
//! let room: u64 = 1_000_000;
//! let opened = answer(alloc, &mut book, room, br#"{"def":0,"do":"open"}"#);
//! // First append the lines to the log and sync it. Then send the text.
//! let _lines = opened.lines();
//! let _text = opened.text();
//! let room = room.saturating_sub(opened.lines().len() as u64);
//! let task = answer(alloc, &mut book, room, br#"{"do":"next"}"#);
//! (opened.lines().len(), task.lines().len())
//! ```
#![tactic(auto)]

mod answers;
mod attempts;
mod drops;
mod fields;
mod happenings;
mod laws;
mod many;
mod openings;
mod phases;
mod plain;
mod questions;
mod replies;
mod reports;
mod requests;
mod responses;
mod restarts;
mod room;
mod starts;
mod tellings;
mod trails;
mod verbs;

pub use answers::{answer, respond};
pub use attempts::Attempt;
pub use drops::drop_plans;
pub use laws::{answer_laws, restart_laws};
pub use openings::Wanted;
pub use replies::Reply;
pub use requests::{MAX_REQUEST, Request, RequestFault, read_request};
pub use responses::Response;
pub use restarts::{Restart, RestartRefusal, restart_from};
pub use trails::{Trail, audit_trail};
