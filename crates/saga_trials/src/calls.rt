//! Trials of calls that no command of the program makes. Each must return the expected result.
use crate::samples::{self, DROPPED_LOG, TRIP, TRIP_CASE, TRIP_LOG};
use crate::trial::Trial;
use anyhow::{Result, ensure};
use saga_audit::AuditAnswer;
use saga_case::Case;
use saga_cert::write_case;
use saga_core::Book;
use saga_def::Definition;
use saga_drive::audit_trail;
use saga_history::{Event, first_not_allowed};
use saga_order::Order;
use std::alloc::{AllocError, Global};

/// A call.
#[derive(Clone, Copy)]
pub enum Call {
    Order,
    WriteCase,
    NotAllowed,
    /// The same for a history without an adopted plan.
    NoneAdopted,
    Trail,
}

/// The arguments of the calls: the trip, its case, and its history.
#[derive(Clone, Copy)]
struct On<'a, 'd> {
    shelf: &'d [Definition],
    definition: &'d Definition,
    case: &'a Case<'d>,
    events: &'a [Event],
    book: &'a Book<'d>,
}

/// Makes a trial of a call. If the call takes memory, each allocation may be refused in turn. If it takes none, every
/// allocation is refused.
pub fn run(trial: &mut Trial<'_>, call: Call) -> Result<()> {
    let alloc = trial.alloc();
    let shelf = samples::shelf(alloc, TRIP)?;
    let events = samples::events(alloc, TRIP_LOG)?;
    let book = samples::book(alloc, &shelf, events)?;
    run_on(trial, call, &shelf, &book)
}

/// Makes the trial with a shelf and a book.
fn run_on(trial: &mut Trial<'_>, call: Call, shelf: &[Definition], book: &Book<'_>) -> Result<()> {
    let alloc = trial.alloc();
    let definition = samples::first(shelf)?;
    let case = samples::case(alloc, definition, TRIP_CASE)?;
    let log = match call {
        Call::NoneAdopted => DROPPED_LOG,
        _ => TRIP_LOG,
    };
    let events = samples::events(alloc, log)?;
    let on = On {
        shelf,
        definition,
        case: &case,
        events: &events,
        book,
    };
    call_twice(trial, call, on)
}

/// Makes the call, and repeats it if memory was refused.
fn call_twice(trial: &mut Trial<'_>, call: Call, on: On<'_, '_>) -> Result<()> {
    let alloc = trial.alloc();
    if trial.refuses {
        trial.each();
    } else {
        trial.none();
    }
    let mut right = is_right(alloc, on, call);
    trial.ample();
    if right.is_err() {
        trial.refused = true;
        right = is_right(alloc, on, call);
    }
    ensure!(right?, "another result");
    Ok(())
}

/// The result of an audit of the trip.
const YES: AuditAnswer = AuditAnswer::Yes {
    sagas: 1,
    ended: 1,
    stuck: 0,
    events: 13,
};

/// Whether a call returns the expected result.
fn is_right(alloc: Global, on: On<'_, '_>, call: Call) -> Result<bool, AllocError> {
    Ok(match call {
        Call::Order => is_line(&Order::of(alloc, on.definition)?),
        Call::WriteCase => write_case(alloc, on.case)?.as_str() == TRIP_CASE,
        Call::NotAllowed | Call::NoneAdopted => first_not_allowed(
            alloc, on.shelf, on.events,
        )?.is_none(),
        Call::Trail => {
            let trail = audit_trail(alloc, on.book)?;
            trail.log.as_str() == TRIP_LOG && trail.answer == YES
        }
    })
}

/// Whether the order is that of the trip.
fn is_line(order: &Order<'_>) -> bool {
    order.count() == 3
        && order.precedes(0, 2)
        && !order.precedes(2, 0)
        && order.rank(0) == 0
        && order.rank(2) == 2
}
