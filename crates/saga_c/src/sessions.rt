//! A session: the book of a coordinator, the free space of its log, and a reply that did not fit into the buffer of its
//! call.
ghost use Rattle.std.specs.Prelude.{◌≡◌, IsSome, None, Option, Some};
ghost use Rattle.saga_c.specs.Meetings.{IsMet};
ghost use Rattle.saga_c.specs.Sessions.{IsAnswered, IsPut, IsReplied, settled};
ghost use Rattle.saga_c.specs.declared.sessions.Session.{Session};

use crate::blocks::Block;
use crate::filling::{OK, Told, give_reply, rejected};
use crate::starts::start;
use saga_core::Book;
use saga_def::Definition;
use saga_drive::{Reply, answer};
use std::alloc::Global;

/// The book of a coordinator, the free space of its log, and the stored reply.
#[derive(Drop)]
pub struct Session<'d> {
    pub alloc: Global,
    pub book: Book<'d>,
    /// The free space of the log, in bytes.
    pub room: u64,
    /// The last reply, if the buffer of its call was too small.
    pub kept: Option<Reply>,
}

/// The operations of a session.
#[derive(Clone, Copy)]
pub enum Ask<'a> {
    /// Continues from the text of a log.
    Start(&'a [u8]),
    /// Executes a request.
    Answer(&'a [u8]),
    /// Returns the stored reply.
    Fetch,
}

/// A call: the operation, the buffer for its text, and its results.
#[derive(Drop)]
pub struct Call<'a, 'b> {
    pub ask: Ask<'a>,
    pub buffer: &'b mut [u8],
    pub told: Told,
}

/// Makes a session over definitions that has not read a log, in a block that was allocated for it.
pub fn settle<'d>(
    alloc: Global,
    cell: Block<Option<Session<'d>>>,
    shelf: &'d mut Vec<Definition>,
) -> Block<Option<Session<'d>>>
    ensures { result.value ≡ Some (settled alloc shelf.entry.now.items) }
{
    let mut cell = cell.into_box(alloc);
    let shelf: &'d [Definition] = shelf.as_slice();
    *cell = Some(Session {
        alloc,
        book: Book::new(alloc, shelf, 0, 1),
        room: 0,
        kept: None,
    });
    Block::of(cell)
}

/// Ends a session.
pub fn end_session(alloc: Global, cell: Block<Option<Session<'_>>>) {
    let _cell = cell.into_box(alloc);
}

/// Frees definitions.
pub fn free_shelf(alloc: Global, shelf: Block<Vec<Definition>>) {
    let _shelf = shelf.into_box(alloc);
}

impl Session<'_> {
    /// Returns a reply to the caller, or stores it if the buffer is too small.
    fn hand(&mut self, reply: Reply, buffer: &mut [u8]) -> Told
        ensures put { IsPut reply self.new.kept buffer.old buffer.new result }
        ensures book { self.new.book ≡ self.old.book }
        ensures room { self.new.room ≡ self.old.room }
    {
        let told = give_reply(&reply, buffer);
        self.kept = if told.status == OK { None } else { Some(reply) };
        told
    }

    /// Executes a request. Rejects the call while a reply is stored.
    fn answer(&mut self, request: &[u8], buffer: &mut [u8]) -> Told
        ensures { IsAnswered self.old self.new request.now buffer.old buffer.new result }
    {
        if self.kept.is_some() {
            return rejected();
        }
        let reply = answer(self.alloc, &mut self.book, self.room, request);
        self.room = self.room.saturating_sub(reply.lines().len() as u64);
        self.hand(reply, buffer)
    }

    /// Returns the stored reply.
    fn fetch(&mut self, buffer: &mut [u8]) -> Told
        ensures { IsReplied self.old self.new buffer.old buffer.new result }
    {
        match self.kept.take() {
            Some(reply) => self.hand(reply, buffer),
            None => rejected(),
        }
    }
}

/// Executes a call on a session, and sets its results.
pub fn meet(cell: &mut Option<Session<'_>>, call: &mut Call<'_, '_>)
    requires { IsSome cell.old }
    ensures same { call.new.buffer.ghost_name ≡ call.old.buffer.ghost_name }
    ensures met { IsMet cell.old cell.new call.old.ask call.old.buffer.now call.new.buffer.now call.new.told }
{
    match cell {
        Some(session) => {
            call.told = match call.ask {
                Ask::Start(log) => start(session, log, call.buffer),
                Ask::Answer(request) => session.answer(request, call.buffer),
                Ask::Fetch => session.fetch(call.buffer),
            };
        }
        None => unreachable!(),
    }
}
