//! Trips that are executed to their ends, by one thread and by four workers.
ghost use Rattle.std.specs.Prelude.{◌≡◌, ◌∷◌, [], All, IfOk, OnOk};
ghost use Rattle.saga_core.specs.Book.{HeadlineOf};
ghost use Rattle.saga_core.specs.Tasks.{AllAreOver};
ghost use Rattle.saga_desk.specs.Finish.{HeadlineHolds};
ghost use Rattle.saga_trials.specs.Entries.{AreNoted};
ghost use Rattle.saga_trials.specs.Seats.{BookHasSeats, EntryHasSeat};

use crate::agency::Agency;
use anyhow::{Context, Error, Result, anyhow, ensure};
use saga_check::verify;
use saga_core::Book;
use saga_def::Definition;
use saga_history::Outcome::{Done, Failed, Void};
use saga_history::Task;
use saga_plan::plan;
use saga_work::run_all;
use std::alloc::Global;
use std::sync::Wait;
use std::thread::Threads;

/// An entry of the service about what it did, with the numbers of trip and step.
#[derive(Clone, Copy, Debug)]
pub enum Entry {
    Booked(u32, u16),
    Refused(u32, u16),
    Cancelled(u32, u16),
}

/// A refusal as an error without its name. A text for each type of refusal would need a proof for each type.
fn refused<E: Drop>(_why: E) -> Error {
    anyhow!("refused")
}

/// Books a step of a trip.
fn book_step(agency: &Agency, book: &mut Book, trip: u32, step: u16) -> Result<Entry>
    ensures noted { IfOk result (λ entry. AreNoted book.old book.new (entry ∷ [])) }
    ensures seat { IfOk result (EntryHasSeat agency.now) }
{
    let misses = book.misses(trip, step).context("no such step")?;
    book.take_run(trip, step).map_err(refused)?;
    let outcome = agency.book(trip, step, u64::from(misses) + 1);
    book.report_run(trip, step, outcome).map_err(refused)?;
    Ok(match outcome {
        Done => Entry::Booked(trip, step),
        Void | Failed => Entry::Refused(trip, step),
    })
}

/// Cancels a step of a trip.
fn cancel_step(book: &mut Book, trip: u32, step: u16) -> Result<Entry>
    ensures noted { IfOk result (λ entry. AreNoted book.old book.new (entry ∷ [])) }
    ensures cancelled { IfOk result (λ entry. entry ≡ Entry.Cancelled trip step) }
{
    book.take_undo(trip, step).map_err(refused)?;
    book.report_undo(trip, step, Done).map_err(refused)?;
    Ok(Entry::Cancelled(trip, step))
}

/// Plans how a trip ends, with minimum cost, and adopts the plan.
fn settle(alloc: Global, book: &mut Book, trip: u32) -> Result<()>
    ensures { OnOk result (AreNoted book.old book.new []) }
{
    let case = book.take_plan(trip).map_err(refused)?;
    let answer = plan(alloc, &case)?;
    let Ok(verdict) = verify(case, answer) else {
        unreachable!()
    };
    book.adopt(trip, verdict).map_err(refused)
}

/// Executes the trips of a book to their ends, one task after another, and returns the entries of what was done.
pub fn drive(alloc: Global, agency: &Agency, book: &mut Book) -> Result<Vec<Entry>>
    ensures noted { IfOk result (λ entries. AreNoted book.old book.new entries.items) }
    ensures seats { IfOk result (λ entries. All (EntryHasSeat agency.now) entries.items) }
    ensures over { OnOk result (AllAreOver book.new) }
    ensures headline { OnOk result (HeadlineOf book.new) }
{
    let mut entries = Vec::new(alloc);
    for _ in 0..u64::MAX {
        match book.next() {
            Some(Task::Run(trip, step)) => entries.push(book_step(agency, book, trip, step)?)?,
            Some(Task::Undo(trip, step)) => entries.push(cancel_step(book, trip, step)?)?,
            Some(Task::Plan(trip)) => settle(alloc, book, trip)?,
            None => break,
        }
    }
    ensure!(book.settled(), "not every trip is over");
    let _ = book.history();
    Ok(entries)
}

/// Executes trips to their ends with four workers, on four shards. The requested definitions are given by their indices
/// on the shelf.
pub fn drive_by_workers<'d, R: Threads + Wait + Sync>(
    rt: &R,
    alloc: Global,
    agency: &Agency,
    shelf: &'d [Definition],
    asks: &[u32],
) -> Result<Vec<Book<'d>>>
    ensures seats { IfOk result (λ books. All (BookHasSeats agency.now) books.items) }
    ensures over { IfOk result (λ books. All AllAreOver books.items) }
    ensures headline { IfOk result (λ books. HeadlineHolds shelf.entry.now books.items) }
{
    let run = run_all(rt, alloc, shelf, asks, 4, 4, agency).map_err(refused)?;
    ensure!(run.stopped.is_none(), "the workers stopped");
    Ok(run.books)
}
