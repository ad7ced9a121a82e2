//! The summary of a book.
ghost use Rattle.std.specs.Prelude.{◌≡◌, ◌≤◌, IfOk, codes, length, map, string_bytes};
ghost use Rattle.saga_views.specs.Status as spec;

use crate::phases::{is_same, phases_of};
use crate::words::listed;
use itoa::Buffer;
use saga_core::{Book, MAX_SAGAS};
use saga_def::Definition;
use saga_history::Phase;
use std::alloc::{AllocError, Global};

/// Returns the number of sagas in a phase.
fn count_in(phases: &[Phase], phase: Phase) -> usize
    ensures { result ≡ spec.count_in phase phases.now }
{
    phases.iter().filter(|p| is_same(phase, **p)).count()
}

fn quoted(alloc: Global, name: &str) -> Result<String, AllocError>
    ensures { IfOk result (λ text. string_bytes text ≡ spec.quoted name.now) }
{
    ["\"", name, "\""].concat(alloc)
}

/// Returns the list of the names of definitions.
fn names_text(alloc: Global, shelf: &[Definition]) -> Result<String, AllocError>
    ensures { IfOk result (λ text. string_bytes text ≡ spec.names_text shelf.now) }
{
    let mut names = Vec::new(alloc);
    for definition in shelf {
        names.push(quoted(alloc, definition.name())?)?;
    }
    listed(alloc, &names)
}

/// Returns the text of these counts.
fn counts_text(
    alloc: Global,
    book: &Book<'_>,
    names: &str,
    ended: usize,
    stuck: usize,
) -> Result<String, AllocError>
    ensures { names.now ≡ spec.names_text book.now.shelf → IfOk result (λ text. string_bytes text ≡ spec.status_text book.now ended stuck) }
{
    let mut first = Buffer::new();
    let mut second = Buffer::new();
    let mut third = Buffer::new();
    let mut fourth = Buffer::new();
    let mut fifth = Buffer::new();
    let opened = book.sagas();
    [
        "{\"definitions\":[",
        names,
        "],\"ended\":",
        first.format(ended as u64),
        ",\"events\":",
        second.format(book.history().len() as u64),
        ",\"opened\":",
        third.format(opened as u64),
        ",\"room\":",
        fourth.format((MAX_SAGAS - opened) as u64),
        ",\"stuck\":",
        fifth.format(stuck as u64),
        "}\n",
    ]
    .concat(alloc)
}

/// Returns the summary of a book: the numbers of opened, ended and stuck sagas, the number of sagas that may still be
/// opened, the number of events, and the names of the definitions. Takes time linear in the sagas.
pub fn status_text(alloc: Global, book: &Book<'_>) -> Result<String, AllocError>
    ensures { IfOk result (λ text. spec.TellsStatus book.now (string_bytes text)) }
{
    let phases = phases_of(alloc, book)?;
    let names = names_text(alloc, book.shelf())?;
    let ended = count_in(&phases, Phase::Ended);
    let stuck = count_in(&phases, Phase::Stuck);
    counts_text(alloc, book, names.as_str(), ended, stuck)
}
