//! The drawing of a definition, as text of Graphviz's language: its steps with their costs, its needs, and optionally
//! the states of a case and the marks of an answer.
//!
//! `docs/FORMATS.md` of the repository has the format.
#![tactic(auto)]

mod drawings;
mod lines;
mod marks;

pub use drawings::draw;
