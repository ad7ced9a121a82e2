//! The bell: a condition variable on which idle workers wait.
ghost use Rattle.std.specs.Prelude.{◌≡◌, IfOk, OnErr, length};
ghost use Rattle.saga_desk.specs.Effects.{Claims};

use saga_desk::{Claim, Desk, Policy, Seat};
use std::alloc::AllocError;
use std::sync::atomic::{AtomicU64, Ordering};
use std::sync::{Condvar, Mutex, Wait};

/// The number of waiting workers, and the number of notifications. A worker without a task increments the first, tries
/// to claim once more, and then waits for a notification. A worker that ended a job checks the number of waiting
/// workers, and notifies only if it is positive.
///
/// No wake-up is lost. A waiting worker increments the count before its last attempt to claim, and a worker that ended
/// a job reads the count after that end. So either the last attempt sees the effect of the job, or the count is seen,
/// and the notification comes after the waiting worker has read the number of notifications.
#[derive(Drop)]
pub struct Bell {
    waiting: AtomicU64,
    rings: AtomicU64,
    door: Mutex<()>,
    rung: Condvar,
}

impl Bell {
    /// A bell without notifications. Takes no memory.
    pub fn new() -> Bell {
        Bell {
            waiting: AtomicU64::new(0),
            rings: AtomicU64::new(0),
            door: Mutex::new(()),
            rung: Condvar::new(),
        }
    }

    /// Adds a waiting worker. Returns the number of notifications so far, modulo 2^64.
    fn enter(&self) -> u64 {
        self.waiting.fetch_add(1, Ordering::SeqCst);
        self.rings.load(Ordering::SeqCst)
    }

    /// Removes a waiting worker.
    fn leave(&self) {
        self.waiting.fetch_sub(1, Ordering::SeqCst);
    }

    /// Whether a worker waits.
    fn is_awaited(&self) -> bool {
        self.waiting.load(Ordering::SeqCst) > 0
    }

    /// Notifies all waiting workers.
    fn ring<R: Wait>(&self, rt: &R) {
        let _door = self.door.lock(rt);
        self.rings.fetch_add(1, Ordering::SeqCst);
        self.rung.notify_all();
    }

    /// Waits for a notification after the first `seen`.
    fn wait_past<R: Wait>(&self, rt: &R, seen: u64) {
        let door = self.door.lock(rt);
        let _door = self
            .rung
            .wait_while(rt, door, |_| self.rings.load(Ordering::SeqCst) == seen);
    }
}

/// The bell as one worker uses it. `rung_for` is the number of its seat's receipts for which it has rung. A ring
/// notifies the waiting workers only if there are any and they may have a task or may end.
///
/// A worker may claim only if it has rung for all of its receipts. So waiting workers are woken after every change of
/// the desk by this worker, before it continues.
#[derive(Drop)]
pub(crate) struct Rope<'b> {
    bell: &'b Bell,
    rung_for: usize,
}

impl<'b> Rope<'b> {
    /// The bell for a seat. It counts as rung for all receipts so far.
    pub(crate) fn new(bell: &'b Bell, seat: &Seat) -> Rope<'b>
        ensures { result.rung_for ≡ length seat.now.receipts }
    {
        Rope {
            bell,
            rung_for: seat.receipts().len(),
        }
    }

    /// Rings for all receipts of the seat.
    pub(crate) fn ring<R: Wait, P: Policy>(&mut self, rt: &R, desk: &Desk<'_, P>, seat: &Seat)
        ensures { self.new.rung_for ≡ length seat.now.receipts }
    {
        if self.bell.is_awaited() && !desk.is_idle() {
            self.bell.ring(rt);
        }
        self.rung_for = seat.receipts().len();
    }

    /// Counts the worker as waiting and tries to claim once more. If there is no task, waits until that may have
    /// changed.
    pub(crate) fn wait<'d, R: Wait, P: Policy>(
        &self,
        rt: &R,
        desk: &Desk<'d, P>,
        seat: &mut Seat,
    ) -> Result<Claim<'d>, AllocError>
        requires { self.now.rung_for ≡ length seat.old.receipts }
        ensures ok { IfOk result (λ claim. Claims seat.old seat.new claim) }
        ensures err { OnErr result (seat.new ≡ seat.old) }
    {
        let seen = self.bell.enter();
        let claim = desk.claim(rt, seat);
        if let Ok(Claim::Idle) = claim {
            self.bell.wait_past(rt, seen);
        }
        self.bell.leave();
        claim
    }
}
