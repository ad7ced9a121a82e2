//! JSON texts: the value of a text, and readings of an object: its keys, texts, whole numbers of each width, and lists.
//!
//! [`JsonFault`] has the faults of all such texts: cases, answers, lines of a log, requests.
#![tactic(auto)]

mod faults;
mod fields;
mod keys;
mod texts;

pub use faults::JsonFault;
pub use fields::{items_at, text_at, u16_at, u16s_at, u32_at, u64_at, u64s_at, value_at};
pub use keys::check_keys;
pub use texts::value_of_text;
