//! Raw bytes: reading up to a limit, and splitting into lines. A line feed ends a line. The last line may lack it, and
//! an empty text has no line.
#![tactic(auto)]

mod limits;
mod lines;

pub use limits::{read_once, read_up_to};
pub use lines::split_line;
