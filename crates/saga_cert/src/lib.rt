//! The JSON texts of cases and answers.
//!
//! `docs/FORMATS.md` of the repository has both formats. Reading accepts every text that `serde_json` parses to a value
//! of the format, with any order of keys and any white space. If a key occurs twice, the last one counts. Writing
//! produces one compact text, with keys in ascending order and without a line feed.
#![tactic(auto)]

mod answers;
mod cases;
mod kept;
mod laws;
mod states;
mod texts;
mod written_answers;
mod written_cases;

pub use answers::answer_of_value;
pub use laws::reading_laws;
pub use texts::{read_answer, read_case, write_answer, write_case};
pub use written_answers::value_of_answer;
