//! Reports: the outcome of an action or a compensation.
ghost use Rattle.std.specs.Prelude.{◌≡◌, IfOk, OnErr};
ghost use Rattle.saga_core.specs.Refusals.{OfSaga};
ghost use Rattle.saga_drive.specs.Answers.{IsMet};
ghost use Rattle.saga_drive.specs.Attempts.{IsMeantAttempt};
ghost use Rattle.saga_drive.specs.declared.requests.Request.TheVariants as request;

use crate::attempts::{Attempt, is_meant, on_its_way};
use crate::happenings::Happening;
use crate::replies::Reply;
use saga_core::Book;
use saga_history::{Event, Kind, Outcome};
use std::alloc::{AllocError, Global};

/// Ends the running action or compensation of a step. It is the attempt to which the report refers.
fn end(
    alloc: Global,
    book: &mut Book<'_>,
    saga: u32,
    step: u16,
    kind: Kind,
    meant: Option<Attempt>,
    outcome: Outcome,
) -> Result<Reply, AllocError>
    requires { OfSaga book.old saga (λ d l. IsMeantAttempt meant kind d l step) }
    ensures ok { IfOk result (IsMet book.old book.new (request.Report saga step meant outcome)) }
    ensures err { OnErr result (book.new ≡ book.old) }
{
    let Ok(t) = book.end_of(saga, step, kind, outcome) else {
        unreachable!()
    };
    let happening = Happening::new(alloc, &Event::of_step(saga, step, t))?;
    match book.report(saga, step, kind, outcome) {
        Ok(()) => Ok(happening.told(book, saga)),
        Err(_) => unreachable!(),
    }
}

/// Records that the running action or compensation of a step ended. Refuses if the saga or the step is unknown, if no
/// attempt is running, or if the report names another attempt than the running one.
pub fn report(
    alloc: Global,
    book: &mut Book<'_>,
    saga: u32,
    step: u16,
    meant: Option<Attempt>,
    outcome: Outcome,
) -> Result<Reply, AllocError>
    ensures ok { IfOk result (IsMet book.old book.new (request.Report saga step meant outcome)) }
    ensures err { OnErr result (book.new ≡ book.old) }
{
    let Some(found) = book.saga(saga) else {
        return Ok(Reply::Refusal("{\"refused\":\"no-such-saga\"}\n"));
    };
    if !found.has_step(step) {
        return Ok(Reply::Refusal("{\"refused\":\"no-such-step\"}\n"));
    }
    let Some(kind) = on_its_way(found.state(step)) else {
        return Ok(Reply::Refusal("{\"refused\":\"not-taken\"}\n"));
    };
    let number = u16::from(found.missed(kind, step)) + 1;
    if !is_meant(meant, kind, number) {
        return Ok(Reply::Refusal("{\"refused\":\"other-attempt\"}\n"));
    }
    end(alloc, book, saga, step, kind, meant, outcome)
}
