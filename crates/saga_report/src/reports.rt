//! The report of histories.
ghost use Rattle.std.specs.Prelude.{◌≡◌, ◌++◌, List, [], IfOk, map, length, sum_by, slice_index_or, string_bytes};
ghost use Rattle.std.specs.Option.{option_copied};
ghost use Rattle.saga_history.specs.declared.events.Event.{Event};
ghost use Rattle.saga_history.specs.Changes.{changes, past};
ghost use Rattle.saga_report.specs.Tells.{AreFollowed, IsKept};
ghost use Rattle.saga_report.specs.Reports.{IsCountedReport, IsReport, is_ended, is_stuck, phase_at, text_at};

use crate::entries::ordered_entries;
use crate::follow::follow;
use crate::lines::{push_saga, push_total};
use crate::sagas::{Entry, Saga};
use saga_def::Definition;
use saga_history::{Event, Phase};
use std::alloc::{AllocError, Global};
use std::collections::HashMap;

/// The sagas of each history.
fn follow_all(alloc: Global, histories: &[&[Event]]) -> Result<Vec<HashMap<u32, Saga>>, AllocError>
    ensures { IfOk result (λ books. AreFollowed books.items (map (λ h. h.now) histories.now)) }
{
    let mut books = Vec::new(alloc);
    for events in histories {
        let book = follow(alloc, events)?;
        books.push(book)?;
    }
    Ok(books)
}

/// The stored state of a saga.
fn find<'a>(books: &'a [HashMap<u32, Saga>], entry: Entry) -> Option<&'a Saga>
    ensures { (histories : List (List Event)) → AreFollowed books.entry.now histories
        → IsKept (option_copied result)
        (changes entry.number (past (slice_index_or histories entry.place []))) }
{
    match books.get(entry.place) {
        Some(book) => book.get(&entry.number),
        None => None,
    }
}

/// Appends the lines of a saga, and returns its phase.
fn push_entry(
    alloc: Global,
    text: &mut String,
    shelf: &[Definition],
    books: &[HashMap<u32, Saga>],
    entry: Entry,
) -> Result<Phase, AllocError>
    ensures text { IfOk result
        (λ _. (histories : List (List Event)) → AreFollowed books.now histories
        → string_bytes text.new ≡ string_bytes text.old ++ text_at shelf.now histories entry) }
    ensures phase { IfOk result (λ phase. (histories : List (List Event))
        → AreFollowed books.now histories
        → phase ≡ phase_at shelf.now histories entry) }
{
    match find(books, entry) {
        Some(saga) => push_saga(alloc, text, shelf, entry.number, saga),
        None => push_saga(alloc, text, shelf, entry.number, &Saga::new(alloc)),
    }
}

fn is_ended(phase: Phase) -> bool
    ensures { result ≡ is_ended phase }
{
    matches!(phase, Phase::Ended)
}

fn is_stuck(phase: Phase) -> bool
    ensures { result ≡ is_stuck phase }
{
    matches!(phase, Phase::Stuck)
}

/// The total number of events of the histories.
fn events_of(histories: &[&[Event]]) -> u128
    ensures { result ≡ sum_by length (map (λ h. h.now) histories.now) }
{
    let mut total: u128 = 0;
    for events in histories {
        total += events.len() as u128;
    }
    total
}

/// A report, and the number of stuck sagas in it.
#[derive(Debug, Drop)]
pub struct CountedReport {
    pub text: String,
    pub stuck: usize,
}

/// The report of the sagas that histories open, with the definitions of a shelf, and the number of stuck sagas. Takes
/// time linear in the events.
///
/// The sagas are in ascending order of their numbers. Sagas with the same number are in the order of their histories.
/// If a saga was opened with no definition of the shelf, which is impossible in a legal history, the report has neither
/// its name nor its steps.
pub fn report_counted(
    alloc: Global,
    shelf: &[Definition],
    histories: &[&[Event]],
) -> Result<CountedReport, AllocError>
    ensures { IfOk result (λ report. IsCountedReport shelf.now (map (λ h. h.now) histories.now)
        (string_bytes report.text) report.stuck) }
{
    let ordered = ordered_entries(alloc, histories)?;
    let entries = ordered.as_slice();
    let books = follow_all(alloc, histories)?;
    let mut text = String::new(alloc);
    let mut ended = 0usize;
    let mut stuck = 0usize;
    for entry in entries {
        let phase = push_entry(alloc, &mut text, shelf, books.as_slice(), *entry)?;
        ended += is_ended(phase) as usize;
        stuck += is_stuck(phase) as usize;
    }
    push_total(
        alloc,
        &mut text,
        entries.len(),
        ended,
        stuck,
        events_of(histories),
    )?;
    Ok(CountedReport { text, stuck })
}

/// The text of [`report_counted`].
pub fn report(
    alloc: Global,
    shelf: &[Definition],
    histories: &[&[Event]],
) -> Result<String, AllocError>
    ensures { IfOk result
        (λ text. IsReport shelf.now (map (λ h. h.now) histories.now) (string_bytes text)) }
{
    Ok(report_counted(alloc, shelf, histories)?.text)
}
