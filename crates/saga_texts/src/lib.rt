//! The commands of the program as functions of texts: a definition, a case, an answer, a script and a log. They do no
//! file I/O and parse no command line.
//!
//! [`check_text`] verifies an answer, [`plan_text`] makes one, [`draw_text`] draws a saga, [`run_text`] runs sagas with
//! a script, and [`audit_text`] audits a log. [`audit_text_alone`] audits a log on one thread.
#![tactic(auto)]

mod audits;
mod beside;
mod conclusions;
mod drawings;
mod limits;
mod outputs;
mod runs;
mod shelves;
mod texts;

pub use audits::numbered_line;
pub use beside::{definitions_file, definitions_of, first_other};
pub use drawings::Scene;
pub use limits::{MAX_CERTIFICATE, MAX_LOG, MAX_LONG_SHELF, MAX_SHELF};
pub use outputs::Output;
pub use runs::RunOutput;
pub use shelves::{ShelfFault, read_shelf};
pub use texts::{audit_text, audit_text_alone, check_text, draw_text, plan_text, run_text};
