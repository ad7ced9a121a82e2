//! Answers: executes a request and returns the reply.
//!
//! Each function builds the text of the reply before it changes the book. So if memory runs out, the book is unchanged.
ghost use Rattle.std.specs.Prelude.{◌≡◌, ◌≤◌, ◌-◌, ◌⊎◌, ◌++◌, ℕ, List, IfOk, MatchOption, OnErr, length};
ghost use Rattle.saga_history.specs.declared.tasks.Task.TheVariants as task;
ghost use Rattle.saga_core.specs.Tasks.{MayStart, NoTaskIsAllowed};
ghost use Rattle.saga_logged.specs.BookLog.{IsBookLog};
ghost use Rattle.saga_drive.specs.Replies.{lines_of};
ghost use Rattle.saga_drive.specs.Answers.{IsAnswer, IsDone, IsMet, IsOpened, IsResponse, KeepsShelf, LacksMemory, LogsReply};
ghost use Rattle.saga_drive.specs.Room.{IsEnough};
ghost use Rattle.saga_drive.specs.Starts.{task_of};
ghost use Rattle.saga_drive.specs.declared.requests.Request.TheVariants as request;

use crate::happenings::Happening;
use crate::many::next_many;
use crate::openings::{Wanted, index_of_wanted, is_next};
use crate::questions::{busy, ready, sagas, show, status};
use crate::replies::{Reply, out_of_memory, reply_of_idle, reply_to_fault};
use crate::reports::report;
use crate::requests::{Request, read_request};
use crate::responses::Response;
use crate::room::has_room;
use crate::starts::{plan_case, start_next, start_step};
use crate::tellings::Telling;
use saga_core::{Book, MAX_SAGAS, OpenRefusal, SagaRefusal};
use saga_history::{Event, Kind, Task, are_sound};
use std::alloc::{AllocError, Global};

/// Opens a saga. Refuses if the definition is unknown, if another number is next, if the book is full, or if the log
/// does not have enough free space. `room` is the free space of the log, in bytes.
fn open(
    alloc: Global,
    book: &mut Book<'_>,
    room: u64,
    wanted: Wanted,
    saga: Option<u32>,
) -> Result<Reply, AllocError>
    ensures ok { IfOk result (IsOpened book.old book.new room wanted saga) }
    ensures err { OnErr result (book.new ≡ book.old) }
{
    let Some(definition) = index_of_wanted(book.shelf(), &wanted) else {
        return Ok(Reply::Refusal("{\"refused\":\"no-such-definition\"}\n"));
    };
    if !is_next(book, saga) {
        return Ok(Reply::Refusal("{\"refused\":\"not-next\"}\n"));
    }
    if book.sagas() >= MAX_SAGAS {
        return Ok(Reply::Refusal("{\"refused\":\"full\"}\n"));
    }
    if !has_room(book, definition, room) {
        return Ok(Reply::Refusal("{\"refused\":\"log-full\"}\n"));
    }
    let happening = Happening::new(alloc, &Event::Open(book.next_number(), definition))?;
    match book.open(definition) {
        Ok(opened) => Ok(happening.told(book, opened)),
        Err(OpenRefusal::OutOfMemory) => Err(AllocError),
        Err(_) => unreachable!(),
    }
}

/// Replies that no task may start.
fn idle(alloc: Global, book: &Book<'_>) -> Result<Reply, AllocError>
    requires { NoTaskIsAllowed book.now }
    ensures { IfOk result (IsMet book.now book.now request.Next) }
{
    let reply = reply_of_idle(alloc, book.settled())?;
    Ok(reply)
}

/// Starts the next task, or replies that no task may start.
fn next(alloc: Global, book: &mut Book<'_>) -> Result<Reply, AllocError>
    ensures ok { IfOk result (IsMet book.old book.new request.Next) }
    ensures err { OnErr result (book.new ≡ book.old) }
{
    let mut telling = Telling::new(alloc)?;
    if start_next(alloc, book, &mut telling)? {
        Ok(telling.end("", "\n"))
    } else {
        idle(alloc, book)
    }
}

/// Returns which task of a step may start: the action or the compensation.
fn kind_of_next(book: &Book<'_>, saga: u32, step: u16) -> Option<Kind>
    ensures { MatchOption result
        ((MayStart book.now (task.Run saga step) → ⊥)
        × (MayStart book.now (task.Undo saga step) → ⊥))
        (λ kind. MayStart book.now (task_of kind saga step)) }
{
    if book.may_start(Task::Run(saga, step)) {
        return Some(Kind::Run);
    }
    if book.may_start(Task::Undo(saga, step)) {
        return Some(Kind::Undo);
    }
    None
}

/// Starts the task of a step: its action or its compensation, depending on which may start.
fn take_step(alloc: Global, book: &mut Book<'_>, saga: u32, step: u16) -> Result<Reply, AllocError>
    ensures ok { IfOk result (IsMet book.old book.new (request.TakeStep saga step)) }
    ensures err { OnErr result (book.new ≡ book.old) }
{
    let Some(found) = book.saga(saga) else {
        return Ok(Reply::Refusal("{\"refused\":\"no-such-saga\"}\n"));
    };
    if !found.has_step(step) {
        return Ok(Reply::Refusal("{\"refused\":\"no-such-step\"}\n"));
    }
    let Some(kind) = kind_of_next(book, saga, step) else {
        return Ok(Reply::Refusal("{\"refused\":\"not-now\"}\n"));
    };
    let mut telling = Telling::new(alloc)?;
    start_step(alloc, book, saga, step, kind, &mut telling)?;
    Ok(telling.end("", "\n"))
}

/// Makes and adopts a plan for a saga.
fn take_plan(alloc: Global, book: &mut Book<'_>, saga: u32) -> Result<Reply, AllocError>
    ensures ok { IfOk result (IsMet book.old book.new (request.TakePlan saga)) }
    ensures err { OnErr result (book.new ≡ book.old) }
{
    let mut telling = Telling::new(alloc)?;
    match book.present_case(saga) {
        Ok(case) => {
            plan_case(alloc, book, saga, case, &mut telling)?;
            Ok(telling.end("", "\n"))
        }
        Err(SagaRefusal::NoSuchSaga) => Ok(Reply::Refusal("{\"refused\":\"no-such-saga\"}\n")),
        Err(SagaRefusal::NotNow) => Ok(Reply::Refusal("{\"refused\":\"not-now\"}\n")),
        Err(SagaRefusal::OutOfMemory) => Err(AllocError),
    }
}

fn abort(alloc: Global, book: &mut Book<'_>, saga: u32) -> Result<Reply, AllocError>
    ensures ok { IfOk result (IsMet book.old book.new (request.Abort saga)) }
    ensures err { OnErr result (book.new ≡ book.old) }
{
    let happening = Happening::new(alloc, &Event::Abort(saga))?;
    match book.abort(saga) {
        Ok(()) => Ok(happening.told(book, saga)),
        Err(SagaRefusal::NoSuchSaga) => Ok(Reply::Refusal("{\"refused\":\"no-such-saga\"}\n")),
        Err(SagaRefusal::NotNow) => Ok(Reply::Refusal("{\"refused\":\"not-now\"}\n")),
        Err(SagaRefusal::OutOfMemory) => Err(AllocError),
    }
}

fn meet(
    alloc: Global,
    book: &mut Book<'_>,
    room: u64,
    request: Request,
) -> Result<Reply, AllocError>
    ensures ok { IfOk result (IsDone book.old book.new room request) }
    ensures err { OnErr result (book.new ≡ book.old) }
{
    match request {
        Request::Open { wanted, saga } => open(alloc, book, room, wanted, saga),
        Request::Next => next(alloc, book),
        Request::NextMany(most) => next_many(alloc, book, most),
        Request::TakeStep { saga, step } => take_step(alloc, book, saga, step),
        Request::TakePlan(saga) => take_plan(alloc, book, saga),
        Request::Report {
            saga,
            step,
            attempt,
            outcome,
        } => report(alloc, book, saga, step, attempt, outcome),
        Request::Abort(saga) => abort(alloc, book, saga),
        Request::Show(saga) => show(alloc, book, saga),
        Request::Busy => busy(alloc, book),
        Request::Ready(from) => ready(alloc, book, from),
        Request::Sagas { from, phase } => sagas(alloc, book, from, phase),
        Request::Status => status(alloc, book),
        Request::Define(_) => Ok(Reply::Refusal("{\"refused\":\"fixed-shelf\"}\n")),
    }
}

/// Executes a request. The reply is a fault if memory runs out.
fn reply_to(alloc: Global, book: &mut Book<'_>, room: u64, request: Request) -> Reply
    ensures { IsDone book.old book.new room request result ⊎ LacksMemory book.old book.new result }
{
    match meet(alloc, book, room, request) {
        Ok(reply) => reply,
        Err(AllocError) => out_of_memory(),
    }
}

/// Reads a line of input and executes its request, or replies with the reason for a refusal.
fn answer_to(alloc: Global, book: &mut Book<'_>, room: u64, line: &[u8]) -> Reply
    ensures { IsAnswer book.old book.new room line.now result }
{
    match read_request(alloc, line) {
        Ok(request) => reply_to(alloc, book, room, request),
        Err(fault) => reply_to_fault(fault),
    }
}

/// Reads a line of input and executes its request, or replies with the reason for a refusal. A request that adds a
/// definition to the shelf is returned to the caller instead.
fn response_to(alloc: Global, book: &mut Book<'_>, room: u64, line: &[u8]) -> Response
    ensures { IsResponse book.old book.new room line.now result }
{
    let request = match read_request(alloc, line) {
        Ok(request) => request,
        Err(fault) => return Response::Reply(reply_to_fault(fault)),
    };
    match request {
        Request::Define(text) => Response::Define(text),
        request => Response::Reply(reply_to(alloc, book, room, request)),
    }
}

/// Returns the reply to a line of input, which the caller passes without its line feed. The request of the line is
/// executed, or the reply gives the reason for a refusal. `room` is the free space of the log, in bytes.
///
/// The lines of the reply are the log lines of the events that the call adds to the history of the book, in order, and
/// no others. So the log of the book before the call, with these lines appended, is the log of the book after the call.
/// A refusal, a faulty line and a lack of memory leave the book unchanged. A plan is made, verified and adopted in one
/// call.
///
/// Each open saga can end without an overflow of its log. An `open` is refused with `log-full` unless the free space
/// covers the maximum number of bytes that this saga and all sagas that are not ended may write. So if the free space
/// covers the lines that all sagas may still write, it covers the lines of the reply and then the remaining lines. A
/// new book meets this condition.
///
/// Takes time linear in the line and in the steps of one saga, with three exceptions: a plan, a request that visits the
/// sagas (`busy`, `ready`, `list`, `status`), and `show`, which searches the events backward to the last answer of the
/// saga.
pub fn answer(alloc: Global, book: &mut Book<'_>, room: u64, line: &[u8]) -> Reply
    ensures answer { IsAnswer book.old book.new room line.now result }
    ensures shelf { KeepsShelf book.old book.new }
    ensures log { (l : List ℕ) → IsBookLog book.old l → IsBookLog book.new (l ++ lines_of result) }
    ensures keeps { IsEnough book.old room → (length (lines_of result) ≤ room) × IsEnough book.new (room - length (lines_of result)) }
{
    are_sound(book.shelf());
    let _before = book.history();
    let reply = answer_to(alloc, book, room, line);
    // the history is legal
    let _history = book.history();
    reply
}

/// Returns the reply to a line of input, as [`answer`] does, for a shelf that may grow. If the line is a request to add
/// a definition to the shelf, the book is unchanged and the function returns the text of the definition. The owner of
/// the shelf reads this text and continues with a longer shelf.
pub fn respond(alloc: Global, book: &mut Book<'_>, room: u64, line: &[u8]) -> Response
    ensures response { IsResponse book.old book.new room line.now result }
    ensures shelf { KeepsShelf book.old book.new }
    ensures log { LogsReply book.old book.new result }
{
    let _before = book.history();
    let response = response_to(alloc, book, room, line);
    // the history is legal
    let _history = book.history();
    response
}
