//! A session and the definitions that it borrows, behind pointers that a C program can hold.
ghost use Rattle.std.specs.Prelude.{◌≡◌, IsSome, None, Option, Some};
ghost use Rattle.saga_c.specs.Meetings.{IsMet};
ghost use Rattle.saga_c.specs.Sessions.{settled};
ghost use Rattle.saga_c.specs.declared.sessions.Session.{Session};

use crate::blocks::Block;
use crate::sessions::{Call, Session, end_session, free_shelf, meet, settle};
use saga_def::Definition;
use std::alloc::Global;
use std::marker::Model;

/// A session and the definitions that it borrows, each in its own block, or nothing. The session borrows for a lifetime
/// that ends with the lease.
#[repr(C)]
pub struct Lease {
    session: *mut (),
    shelf: *mut (),
    pub ghost held: { Option Session },
}

impl Model for Lease {
    ghost use Rattle.std.specs.Prelude.{Option};
    ghost use Rattle.saga_c.specs.Leases.{lease_owns};
    ghost use Rattle.saga_c.specs.declared.sessions.Session.{Session};

    ghost also_owns = { λ l. lease_owns l.session l.shelf l.held };
}

impl Lease {
    /// Begins a session over definitions, in a block that was allocated for it.
    pub fn begin(
        &mut self,
        alloc: Global,
        cell: Block<Option<Session<'static>>>,
        shelf: Block<Vec<Definition>>,
    )
        requires closed { self.old.held ≡ None }
        requires empty { cell.value ≡ None }
        ensures { self.new.held ≡ Some (settled alloc shelf.value.items) }
    {
        let Block { at } = shelf;
        let Block { at: session } = settle(alloc, cell, unsafe { &mut *at });
        self.session = session as *mut ();
        self.shelf = at as *mut ();
    }

    /// Executes a call on the session.
    pub fn meet(&mut self, call: &mut Call<'_, '_>)
        requires { IsSome self.old.held }
        ensures same { call.new.buffer.ghost_name ≡ call.old.buffer.ghost_name }
        ensures met { IsMet self.old.held self.new.held call.old.ask call.old.buffer.now call.new.buffer.now call.new.told }
    {
        let cell = self.session as *mut Option<Session<'static>>;
        meet(unsafe { &mut *cell }, call);
    }

    /// Ends the session and frees all its memory.
    pub fn end(&mut self, alloc: Global)
        requires { IsSome self.old.held }
        ensures { self.new.held ≡ None }
    {
        let session = self.session as *mut Option<Session<'static>>;
        let shelf = self.shelf as *mut Vec<Definition>;
        end_session(alloc, Block { at: session });
        free_shelf(alloc, Block { at: shelf });
    }
}
