//! The sagas of histories, in order.
ghost use Rattle.std.specs.Prelude.{◌≡◌, ◌++◌, ◌∷◌, [], MatchOption, OnOk, IfOk, map};
ghost use Rattle.saga_history.specs.Changes.{saga_of, change_of};
ghost use Rattle.saga_report.specs.Opened.{opened_by, opened_sagas};
ghost use Rattle.saga_report.specs.Reports.{AreInOrder, entries_from, entry};

use crate::sagas::Entry;
use saga_history::Event;
use std::alloc::{AllocError, Global};

/// The number of the saga that an event opens, if it opens one.
fn opened_by(event: &Event) -> Option<u32>
    ensures { MatchOption result (opened_by (saga_of event.now) (change_of event.now) ≡ [])
        (λ number. opened_by (saga_of event.now) (change_of event.now) ≡ number ∷ []) }
{
    match event {
        Event::Open(number, _) => Some(*number),
        _ => None,
    }
}

/// Adds the sagas that a history opens.
fn push_entries(entries: &mut Vec<Entry>, place: usize, events: &[Event]) -> Result<(), AllocError>
    ensures { OnOk result (entries.new.items ≡ entries.old.items
        ++ map (entry place) (opened_sagas events.now)) }
{
    for event in events {
        match opened_by(event) {
            Some(number) => entries.push(Entry { number, place })?,
            None => {}
        }
    }
    Ok(())
}

fn entries_of(alloc: Global, histories: &[&[Event]]) -> Result<Vec<Entry>, AllocError>
    ensures { IfOk result
        (λ entries. entries.items ≡ entries_from 0 (map (λ h. h.now) histories.now)) }
{
    let mut entries = Vec::new(alloc);
    for (place, events) in histories.iter().enumerate() {
        push_entries(&mut entries, place, events)?;
    }
    Ok(entries)
}

/// The sagas of histories in ascending order of their numbers. Sagas with the same number are in the order of their
/// histories.
pub fn ordered_entries(alloc: Global, histories: &[&[Event]]) -> Result<Vec<Entry>, AllocError>
    ensures { IfOk result (λ entries. AreInOrder (map (λ h. h.now) histories.now) entries.items) }
{
    let mut entries = entries_of(alloc, histories)?;
    entries.sort_by_key(|entry| entry.number)?;
    Ok(entries)
}
