//! Many nodes over one database: what was acknowledged survives, and records of runs are audited.
//!
//! [`told_survives_on_many_nodes`] states the properties of every run, and [`each_rule_is_needed`] states that no rule
//! can be left out. [`audit_record`] decides whether a record of a real execution is such a run. If it is not, the
//! result is the first event that is not allowed, and the reason.
#![tactic(auto)]

mod answers;
mod events;
mod laws;
mod limits;
mod lines;
mod reasons;
mod watch;

pub use answers::RecordAnswer;
pub use events::{Deed, Event, Stage};
pub use laws::{
    a_record_has_one_answer, answers_may_be_sent, book_survives_on_many_nodes, each_rule_is_needed,
    the_key_alone_does, the_key_compares_no_epoch, told_survives_on_many_nodes,
};
pub use limits::MAX_RECORD;
pub use lines::{LineFault, Record, read_record};
pub use reasons::Reason;
pub use watch::{Now, Tally, audit_record};
