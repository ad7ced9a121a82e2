//! Read-only requests. They return a part of the state of the book and leave it unchanged.
ghost use Rattle.std.specs.Prelude.{IfOk};
ghost use Rattle.saga_drive.specs.Answers.{IsMet};
ghost use Rattle.saga_drive.specs.declared.requests.Request.TheVariants as request;

use crate::replies::{Reply, told};
use saga_core::Book;
use saga_history::Phase;
use saga_views::{busy_text, list_text, ready_text, show_text, status_text};
use std::alloc::{AllocError, Global};

/// Returns the state of a saga.
pub fn show(alloc: Global, book: &Book<'_>, saga: u32) -> Result<Reply, AllocError>
    ensures { IfOk result (IsMet book.now book.now (request.Show saga)) }
{
    match show_text(alloc, book, saga)? {
        None => Ok(Reply::Refusal("{\"refused\":\"no-such-saga\"}\n")),
        Some(text) => Ok(told(alloc, text)),
    }
}

/// Returns the tasks that were started and not yet reported.
pub fn busy(alloc: Global, book: &Book<'_>) -> Result<Reply, AllocError>
    ensures { IfOk result (IsMet book.now book.now request.Busy) }
{
    Ok(told(alloc, busy_text(alloc, book)?))
}

/// Returns the tasks that may start, of the sagas from this number on.
pub fn ready(alloc: Global, book: &Book<'_>, from: u32) -> Result<Reply, AllocError>
    ensures { IfOk result (IsMet book.now book.now (request.Ready from)) }
{
    Ok(told(alloc, ready_text(alloc, book, from)?))
}

/// Returns the phases of the sagas from this number on, or only of the sagas with this phase.
pub fn sagas(
    alloc: Global,
    book: &Book<'_>,
    from: u32,
    phase: Option<Phase>,
) -> Result<Reply, AllocError>
    ensures { IfOk result (IsMet book.now book.now (request.Sagas from phase)) }
{
    Ok(told(alloc, list_text(alloc, book, from, phase)?))
}

/// Returns the summary of the book.
pub fn status(alloc: Global, book: &Book<'_>) -> Result<Reply, AllocError>
    ensures { IfOk result (IsMet book.now book.now request.Status) }
{
    Ok(told(alloc, status_text(alloc, book)?))
}
