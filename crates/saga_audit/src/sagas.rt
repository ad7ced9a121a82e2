//! One saga, followed along its events.
ghost use Rattle.std.specs.Prelude.{◌≡◌, IfOk, Some};
ghost use Rattle.saga_history.specs.Changes.{change_of, changes, past};
ghost use Rattle.saga_rows.specs.Follows.{Follows};
ghost use Rattle.saga_audit.specs.Chains.{AreLinks, Leads};
ghost use Rattle.saga_audit.specs.Groups.{Finds, is_saga};
ghost use Rattle.saga_audit.specs.Reasons.{opened_by};
ghost use Rattle.saga_audit.specs.Sagas.{IsFollowed, new_rows, tally_of};

use crate::answers::{Finding, Tally};
use crate::chains::Link;
use crate::decisions::{follow, refusal};
use crate::reasons::Reason;
use saga_def::Definition;
use saga_history::{Event, Turn};
use saga_rows::Row;
use std::alloc::{AllocError, Global};

/// Makes a row without changes for each definition.
pub fn new_rows<'d>(alloc: Global, shelf: &'d [Definition]) -> Result<Vec<Row<'d>>, AllocError>
    ensures { IfOk result (λ rows. rows.items ≡ new_rows shelf.entry.now) }
{
    let mut rows = Vec::new(alloc);
    for definition in shelf {
        rows.push(Row::new(alloc, definition)?)?;
    }
    Ok(rows)
}

/// Returns the index on the shelf of the definition with which an event opens a saga.
fn opened_by(event: &Event) -> Option<u32>
    ensures { result ≡ opened_by (change_of event.now) }
{
    match event {
        Event::Open(_, definition) => Some(*definition),
        _ => None,
    }
}

/// Returns the tally of a saga after its last event.
fn tally_of(row: &Row, shelf: &[Definition], events: &[Event], saga: u32) -> Tally
    requires { Follows shelf.now row.now (changes saga (past events.now)) }
    ensures { result ≡ tally_of shelf.now events.now saga }
{
    let _ = shelf;
    let _ = events;
    let _ = saga;
    let ended = row.is_ended();
    let stuck = row.turn() == Turn::Stuck;
    Tally {
        sagas: 1,
        ended: usize::from(ended),
        stuck: usize::from(stuck),
    }
}

/// Returns the result for a saga that a row follows up to a link. It follows the links from there.
fn follow_links(
    alloc: Global,
    row: Row,
    shelf: &[Definition],
    events: &[Event],
    links: &[Link],
    saga: u32,
    first: Option<usize>,
) -> Result<Finding, AllocError>
    requires links { AreLinks events.now links.now }
    requires followed { IsFollowed shelf.now row events.now links.now saga first }
    ensures { IfOk result (Finds shelf.now (is_saga saga) events.now) }
{
    let mut row = row;
    let mut to = first;
    while let Some(k) = to {
        let link = links[k];
        let event = &events[link.place];
        match refusal(alloc, &row, event)? {
            Some(reason) => {
                let position = link.place;
                return Ok(Finding::Refused { position, reason });
            }
            None => follow(&mut row, event),
        }
        to = link.next;
    }
    Ok(Finding::Legal(tally_of(&row, shelf, events, saga)))
}

/// Returns the result for a saga whose first event has that link. A saga with only its opening
/// needs no tables of its own.
pub fn follow_saga(
    alloc: Global,
    rows: &[Row],
    shelf: &[Definition],
    events: &[Event],
    links: &[Link],
    saga: u32,
    head: usize,
) -> Result<Finding, AllocError>
    requires rows { rows.now ≡ new_rows shelf.now }
    requires links { AreLinks events.now links.now }
    requires head { Leads events.now links.now saga 0 (Some head) }
    ensures { IfOk result (Finds shelf.now (is_saga saga) events.now) }
{
    let link = links[head];
    let position = link.place;
    let Some(definition) = opened_by(&events[position]) else {
        let reason = Reason::NoSuchSaga;
        return Ok(Finding::Refused { position, reason });
    };
    let Some(row) = rows.get(definition as usize) else {
        let reason = Reason::NoSuchDefinition;
        return Ok(Finding::Refused { position, reason });
    };
    let _ = row.definition().steps();
    match link.next {
        None => Ok(Finding::Legal(tally_of(row, shelf, events, saga))),
        Some(_) => follow_links(
            alloc,
            row.copy(alloc)?,
            shelf,
            events,
            links,
            saga,
            link.next,
        ),
    }
}
