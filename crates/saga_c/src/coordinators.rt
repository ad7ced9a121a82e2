//! The calls of a coordinator. A coordinator keeps its state between the calls.
ghost use Rattle.std.specs.Prelude.{◌≡◌, IfErr, IsSome, None, OnErr, OnOk, map};
ghost use Rattle.saga_c.specs.Coordinators.{AnswersIt, AsksIt, FetchesIt, IsClosed, IsOpened, IsSound};
ghost use Rattle.saga_c.specs.Faults.{IsShelfRefused};
ghost use Rattle.saga_c.specs.Meetings.{IsMet};
ghost use Rattle.saga_c.specs.Pieces.{piece};
ghost use Rattle.saga_c.specs.Starts.{IsPrepared};

use crate::faults::{Fault, output_of_fault};
use crate::filling::{OK, REJECTED, Told, give, rejected};
use crate::leases::Lease;
use crate::pieces::Span;
use crate::sessions::{Ask, Call};
use crate::starts::{begin, shelf_of};
use std::alloc::Global;

/// A coordinator in the memory of the C program. It is either all zeros, or as the last call left it.
#[repr(C)]
pub struct Coordinator {
    lease: Lease,
    /// 1 if the coordinator is open, otherwise 0.
    state: u32,
}

/// Reads definitions, and begins a session over them.
fn prepare(
    alloc: Global,
    lease: &mut Lease,
    definitions: &[u8],
    spans: &[Span],
    log: &[u8],
) -> Result<(), Fault>
    requires { lease.old.held ≡ None }
    ensures ok { OnOk result
        (IsPrepared alloc (map (piece definitions.now) spans.now) log.now lease.new.held) }
    ensures none { OnErr result (lease.new ≡ lease.old) }
    ensures why { IfErr result
        (IsShelfRefused (map (piece definitions.now) spans.now) log.now) }
{
    let shelf = shelf_of(alloc, definitions, spans, log)?;
    begin(alloc, lease, shelf)?;
    Ok(())
}

/// Executes a call on the session of a lease.
fn ask(lease: &mut Lease, what: Ask<'_>, buffer: &mut [u8]) -> Told
    requires { IsSome lease.old.held }
    ensures { IsMet lease.old.held lease.new.held what.entry buffer.old buffer.new result }
{
    let told = rejected();
    let mut call = Call {
        ask: what,
        buffer: &mut *buffer,
        told,
    };
    lease.meet(&mut call);
    let Call {
        ask: _,
        buffer: left,
        told,
    } = call;
    let _ = left.len();
    told
}

/// Opens a coordinator over definitions and from the text of a log. `definitions` holds the texts of all definitions,
/// and each span is the range of one of them. If the coordinator was closed and the status is not 0, it stays closed.
/// If it was open, it is unchanged.
#[unsafe(no_mangle)]
pub extern "C" fn sagas_open(
    alloc: Global,
    coordinator: &mut Coordinator,
    definitions: &[u8],
    spans: &[Span],
    log: &[u8],
    log_used: &mut usize,
    buffer: &mut [u8],
    used: &mut usize,
) -> u32
    requires { IsSound coordinator.old }
    ensures sound { IsSound coordinator.new }
    ensures opened { IsOpened coordinator.old coordinator.new alloc (map (piece definitions.now) spans.now) log.now buffer.old buffer.new log_used.new used.new result }
{
    *log_used = 0;
    *used = 0;
    if coordinator.state != 0 {
        return REJECTED;
    }
    if let Err(fault) = prepare(alloc, &mut coordinator.lease, definitions, spans, log) {
        return give(output_of_fault(alloc, &fault), buffer, used);
    }
    let told = ask(&mut coordinator.lease, Ask::Start(log), buffer);
    *used = told.used;
    if told.status == OK {
        *log_used = told.log;
        coordinator.state = 1;
    } else {
        coordinator.lease.end(alloc);
    }
    told.status
}

/// Executes a call on a coordinator. Returns a rejection if the coordinator is closed.
fn asked(coordinator: &mut Coordinator, what: Ask<'_>, buffer: &mut [u8]) -> Told
    requires { IsSound coordinator.old }
    ensures sound { IsSound coordinator.new }
    ensures asks { AsksIt coordinator.old coordinator.new what.entry buffer.old buffer.new result }
{
    if coordinator.state == 0 {
        return rejected();
    }
    ask(&mut coordinator.lease, what, buffer)
}

/// Executes a request. The buffer gets the log lines of the request, followed by the reply.
#[unsafe(no_mangle)]
pub extern "C" fn sagas_answer(
    coordinator: &mut Coordinator,
    request: &[u8],
    buffer: &mut [u8],
    used: &mut usize,
    lines_used: &mut usize,
) -> u32
    requires { IsSound coordinator.old }
    ensures sound { IsSound coordinator.new }
    ensures answers { AnswersIt coordinator.old coordinator.new request.now buffer.old buffer.new
        lines_used.new used.new result }
{
    let told = asked(coordinator, Ask::Answer(request), buffer);
    *used = told.used;
    *lines_used = told.lines;
    told.status
}

/// Returns the stored reply of an earlier call whose buffer was too small.
#[unsafe(no_mangle)]
pub extern "C" fn sagas_reply(
    coordinator: &mut Coordinator,
    buffer: &mut [u8],
    used: &mut usize,
    lines_used: &mut usize,
) -> u32
    requires { IsSound coordinator.old }
    ensures sound { IsSound coordinator.new }
    ensures fetches { FetchesIt coordinator.old coordinator.new buffer.old buffer.new
        lines_used.new used.new result }
{
    let told = asked(coordinator, Ask::Fetch, buffer);
    *used = told.used;
    *lines_used = told.lines;
    told.status
}

/// Closes a coordinator and frees all its memory. The coordinator may be opened again.
#[unsafe(no_mangle)]
pub extern "C" fn sagas_close(alloc: Global, coordinator: &mut Coordinator)
    requires { IsSound coordinator.old }
    ensures { IsClosed coordinator.new }
{
    if coordinator.state != 0 {
        coordinator.lease.end(alloc);
        coordinator.state = 0;
    }
}
