//! Openings: which definition a request selects, and which number the next saga gets.
ghost use Rattle.std.specs.Prelude.{◌≡◌, ◌↔◌, IsTrue, MatchOption};
ghost use Rattle.saga_drive.specs.Openings as spec;
ghost use Rattle.saga_drive.specs.declared.openings.Wanted.TheVariants as wanted;

use saga_core::Book;
use saga_def::{Definition, Text};

/// The definition with which a request opens a saga.
#[derive(Debug, Drop)]
pub enum Wanted {
    /// The definition at this index of the shelf.
    Index(u32),
    /// The first definition with this name.
    Name(Text),
}

fn is_named(definition: &Definition, name: &str) -> bool
    ensures { IsTrue result ↔ (definition.now.name ≡ name.now) }
{
    definition.name() == name
}

/// Returns the index of the first definition with this name.
fn index_of_name(shelf: &[Definition], name: &str) -> Option<u32>
    ensures { MatchOption result (spec.NoneIsWanted shelf.now (wanted.Name name.now))
        (λ k. spec.IsWanted shelf.now (wanted.Name name.now) k) }
{
    for (index, definition) in shelf.iter().enumerate() {
        if index > u32::MAX as usize {
            return None;
        }
        if is_named(definition, name) {
            return Some(index as u32);
        }
    }
    None
}

/// Returns the index on the shelf of the selected definition.
pub fn index_of_wanted(shelf: &[Definition], wanted: &Wanted) -> Option<u32>
    ensures { MatchOption result (spec.NoneIsWanted shelf.now wanted.now)
        (λ k. spec.IsWanted shelf.now wanted.now k) }
{
    match wanted {
        Wanted::Index(index) if (*index as usize) < shelf.len() => Some(*index),
        Wanted::Index(_) => None,
        Wanted::Name(name) => index_of_name(shelf, name.as_str()),
    }
}

/// Returns whether the next saga gets the requested number. It does if the request has no number.
pub fn is_next(book: &Book<'_>, saga: Option<u32>) -> bool
    ensures { IsTrue result ↔ spec.IsNext saga book.now }
{
    match saga {
        None => true,
        Some(saga) => saga == book.next_number(),
    }
}
