//! The desk: shards that the seats of several workers share, each protected by its own lock.
ghost use Rattle.std.specs.Prelude.{◌≡◌, ◌↔◌, ◌<◌, ◌≤◌, ◌-◌, ◌%◌, IfOk, IfErr, IfSome, IfNone, IsTrue, OnOk, OnErr, length};
ghost use Rattle.std.specs.Sync.Mutex.{mutex_guard_value};
ghost use Rattle.saga_history.specs.declared.events.Mark.TheVariants as mark;
ghost use Rattle.saga_history.specs.Changes.{aborts};
ghost use Rattle.saga_core.specs.Refusals.{SagaRefused};
ghost use Rattle.saga_core.specs.Tasks.{NoTaskIsAllowed};
ghost use Rattle.saga_desk.specs.Effects.{Claims, Gains, GainsEnd, GainsOn, Serves};
ghost use Rattle.saga_desk.specs.Finish.{AreFirstSeats};
ghost use Rattle.saga_desk.specs.Refusals.{AdoptionIsRefused, GivingBackIsRefused, HasClaimed, IsOnShard, OnShardOf, OpenIsRefused, ReportIsRefused};
ghost use Rattle.saga_desk.specs.Rounds.{Begins, IsFoundBy, IsFree, IsTask, WasFoundAs, WasFree, WasLookedAt};
ghost use Rattle.saga_desk.specs.Told.{HoldsTold};

mod finish;

use crate::jobs::{Claim, Job, PlanJob};
use crate::policies::Policy;
use crate::refusals::{AdoptionRefused, GiveBackRefused, ReportRefused};
use crate::rounds::{Found, Round};
use crate::ruled::Ruled;
use crate::shards::Seat;
use crate::signs::{Shown, Sign};
pub use finish::FinishRefused;
use saga_check::Verdict;
use saga_core::{Book, OpenRefusal, SagaRefusal};
use saga_def::Definition;
use saga_history::Outcome;
use std::alloc::{AllocError, Global};
use std::hint::spin_loop;
use std::marker::{Brand, Model};
use std::sync::atomic::{AtomicU64, Ordering};
use std::sync::{Mutex, MutexGuard, Wait};
use std::thread::yield_now;

/// How many spin-loop turns a claim waits to see whether another seat claims at a shard: at most some microseconds.
const MOMENT: u32 = 64;

/// How often a thread tries a lock before it sleeps until the lock is free. `SHORT` is the number of spin-loop turns
/// between two tries.
const TRIES: u32 = 64;

const SHORT: u32 = 4;

/// How often a claim searches for a shard without contention before it waits for a lock: about a millisecond.
const LOOKS: u32 = 16;

/// The number of searches after which a claim yields to other threads. It does not lengthen its waits after that.
const SHORT_LOOKS: u32 = 4;

/// Spins for this number of turns.
fn pause(turns: u32) {
    for _ in 0..turns {
        spin_loop();
    }
}

/// A shard with its lock and its number, and the fields that a claim may read without the lock.
///
/// `claims` counts the claims. It and the sign are written only by the holder of the lock. Padding separates them from
/// the lock and from the next slot, so that they have their own cache lines and readers do not slow down the writers.
#[derive(Drop)]
struct Slot<'d, P: Policy> {
    number: u32,
    sign: Sign,
    claims: AtomicU64,
    before: [u64; 8],
    shard: Mutex<Ruled<'d, P>>,
    behind: [u64; 8],
}

impl<'d, P: Policy> Slot<'d, P> {
    fn new(ruled: Ruled<'d, P>) -> Slot<'d, P>
        ensures { result.number ≡ ruled.entry.first }
    {
        Slot {
            number: ruled.first(),
            sign: Sign::new(),
            claims: AtomicU64::new(0),
            before: [0; 8],
            shard: Mutex::new(ruled),
            behind: [0; 8],
        }
    }

    /// Locks the shard.
    fn lock<R: Wait>(&self, rt: &R) -> MutexGuard<'_, Ruled<'d, P>> {
        for _ in 0..TRIES {
            if let Some(locked) = self.shard.try_lock() {
                return locked;
            }
            pause(SHORT);
        }
        self.shard.lock(rt)
    }

    /// The state of the shard, if its sign shows that it has no task.
    fn found(&self) -> Option<Found>
        ensures { IfSome result (λ found. IsFree found) }
    {
        match self.sign.read() {
            Shown::Open => None,
            Shown::Idle => Some(Found::Idle),
            Shown::Over => Some(Found::Over),
        }
    }

    /// Returns the task of the locked shard for the seat. If there is none, it records the state of the shard in the
    /// round.
    fn serve(
        &self,
        ruled: &mut Ruled<'d, P>,
        seat: &mut Seat,
        round: &mut Round,
    ) -> Result<Option<Claim<'d>>, AllocError>
        requires next { round.old.next < round.old.shards }
        requires left { round.old.looked < round.old.shards }
        ensures some { IfOk result
            (λ o. IfSome o (λ claim. IsTask claim × Serves ruled.old ruled.new seat.old seat.new claim)) }
        ensures idle { IfOk result
            (λ o. IfNone o (NoTaskIsAllowed ruled.old × (seat.new ≡ seat.old))) }
        ensures found { IfOk result
            (λ o. IfNone o (WasFoundAs ruled.old round.old round.new)) }
        ensures err { OnErr result (seat.new ≡ seat.old) }
    {
        match ruled.serve(&self.sign, seat)? {
            Claim::Settled => {
                round.note(Found::Over);
                Ok(None)
            }
            Claim::Idle => {
                round.note(Found::Idle);
                Ok(None)
            }
            claim => {
                let before = self.claims.fetch_add(1, Ordering::SeqCst);
                seat.stay(self.number, before.wrapping_add(1));
                Ok(Some(claim))
            }
        }
    }

    /// Whether there is contention at the shard: another seat made the last claim here, and one claims again within a
    /// moment. One more seat would then only wait.
    fn is_busy(&self, seat: &Seat) -> bool {
        let claims = self.claims.load(Ordering::SeqCst);
        if !seat.is_careful() || seat.claimed_last(self.number, claims) {
            return false;
        }
        pause(MOMENT);
        self.claims.load(Ordering::SeqCst) != claims
    }

    /// Returns the task of this shard for the seat. If there is none, it records the state of the shard in the round.
    /// If the sign shows that there is none, it does not lock the shard.
    fn claim<R: Wait>(
        &self,
        rt: &R,
        seat: &mut Seat,
        round: &mut Round,
    ) -> Result<Option<Claim<'d>>, AllocError>
        requires next { self.now.number ≡ round.old.next }
        requires within { round.old.next < round.old.shards }
        requires left { round.old.looked < round.old.shards }
        ensures some { IfOk result
            (λ o. IfSome o (λ claim. IsTask claim × Claims seat.old seat.new claim)) }
        ensures none { IfOk result (λ o. IfNone o (seat.new ≡ seat.old)) }
        ensures found { IfOk result
            (λ o. IfNone o (WasFree round.old round.new)) }
        ensures err { OnErr result (seat.new ≡ seat.old) }
    {
        if let Some(found) = self.found() {
            round.note(found);
            return Ok(None);
        }
        let mut locked = self.lock(rt);
        self.serve(&mut *locked, seat, round)
    }

    /// The same without waiting for the lock. If the shard may have a task and other seats use it, the round records
    /// that the shard is busy.
    fn try_claim(&self, seat: &mut Seat, round: &mut Round) -> Result<Option<Claim<'d>>, AllocError>
        requires next { self.now.number ≡ round.old.next }
        requires within { round.old.next < round.old.shards }
        requires left { round.old.looked < round.old.shards }
        ensures some { IfOk result
            (λ o. IfSome o (λ claim. IsTask claim × Claims seat.old seat.new claim)) }
        ensures none { IfOk result (λ o. IfNone o (seat.new ≡ seat.old)) }
        ensures found { IfOk result
            (λ o. IfNone o (WasLookedAt round.old round.new)) }
        ensures err { OnErr result (seat.new ≡ seat.old) }
    {
        if let Some(found) = self.found() {
            round.note(found);
            return Ok(None);
        }
        if self.is_busy(seat) {
            round.note(Found::Busy);
            return Ok(None);
        }
        let Some(mut locked) = self.shard.try_lock() else {
            seat.be_careful(true);
            round.note(Found::Busy);
            return Ok(None);
        };
        seat.be_careful(false);
        self.serve(&mut *locked, seat, round)
    }

    fn into_book(self) -> Book<'d>
        ensures { HoldsTold P.may P.may_abort result }
    {
        let Slot { shard, .. } = self;
        shard.into_inner().into_book()
    }
}

/// Waits forever, if a shard is not the one of its index. It is never called: a shard keeps its number and its shelf.
/// But a contract knows only the type of a value that a lock protects, so this case needs code.
fn wait_for_ever<'s, 'd, R: Wait, P: Policy>(
    rt: &R,
    locked: MutexGuard<'s, Ruled<'d, P>>,
    shelf: usize,
    shards: usize,
    shard: usize,
) -> MutexGuard<'s, Ruled<'d, P>>
    requires { IsOnShard shelf shards shard (mutex_guard_value locked) → ⊥ }
    ensures { IsOnShard shelf shards shard (mutex_guard_value result) }
{
    let _ = (locked, shelf, shards, shard);
    for _ in rt.forever() {}
    unreachable!()
}

/// Whether this is the shard with this number, out of `shards`, with `shelf` definitions on its shelf.
fn is_on_shard<P: Policy>(ruled: &Ruled<'_, P>, shelf: usize, shards: usize, shard: usize) -> bool
    ensures { IsTrue result ↔ IsOnShard shelf shards shard ruled.now }
{
    ruled.definitions() == shelf
        && ruled.first() as usize == shard
        && ruled.stride() as usize == shards
}

/// Shards that several seats share. Contracts see its shelf and the numbers of seats and shards.
///
/// It accepts only the reports and aborts that its policy permits. With `Brand`, as in [`Desk::open`], it accepts all.
///
/// Each call except `shards` and `finish` locks a shard, which may block, and calls one method of [`Shard`]. That
/// method documents the effect on the book. The methods here document the effect on the seat.
#[derive(Drop)]
pub struct Desk<'d, P: Policy = Brand> {
    shelf: &'d [Definition],
    seats: u32,
    slots: Vec<Slot<'d, P>>,
}

impl<'d, P: Policy> Model for Desk<'d, P> {
    ghost use Rattle.std.specs.Prelude.{◌≡◌, ℕ, ◌<◌, ◌≤◌, Some, slice_get, vec_len};
    ghost use Rattle.saga_desk.specs.declared.desks.Slot.{Slot};
    ghost use Rattle.saga_desk.specs.Desk.{Desk};

    ghost Value = { Desk };

    ghost view = { λ d. record
        { shelf = d.shelf.now; seats = d.seats; shards = vec_len d.slots } };

    ghost invariant = { λ d. (0 < vec_len d.slots) × (vec_len d.slots ≤ 16) × (0 < d.seats)
        × (d.seats ≤ 16)
        × ((k : ℕ) (s : Slot P) → slice_get d.slots.items k ≡ Some s → s.number ≡ k) };
}

impl<'d> Desk<'d> {
    /// Returns a desk that accepts all reports and aborts, and its seats. Shards and seats are numbered from 0. Shard
    /// `s` numbers its sagas `s`, `s + shards` and so on.
    pub fn open(
        alloc: Global,
        shelf: &'d [Definition],
        seats: u32,
        shards: u32,
    ) -> Result<(Desk<'d>, Vec<Seat>), AllocError>
        requires seats { (0 < seats) × (seats ≤ 16) }
        requires shards { (0 < shards) × (shards ≤ 16) }
        ensures desk { IfOk result
            (λ opened. opened.0
            ≡ record { shelf = shelf.entry.now; seats = seats; shards = shards }) }
        ensures seats { IfOk result (λ opened. AreFirstSeats seats opened.1.items) }
    {
        Desk::open_with_policy(alloc, shelf, seats, shards)
    }
}

impl<'d, P: Policy> Desk<'d, P> {
    /// Returns a desk like [`Desk::open`], which accepts only the reports and aborts that this policy permits.
    pub fn open_with_policy(
        alloc: Global,
        shelf: &'d [Definition],
        seats: u32,
        shards: u32,
    ) -> Result<(Desk<'d, P>, Vec<Seat>), AllocError>
        requires seats { (0 < seats) × (seats ≤ 16) }
        requires shards { (0 < shards) × (shards ≤ 16) }
        ensures desk { IfOk result
            (λ opened. opened.0
            ≡ record { shelf = shelf.entry.now; seats = seats; shards = shards }) }
        ensures seats { IfOk result (λ opened. AreFirstSeats seats opened.1.items) }
    {
        let mut slots = Vec::with_capacity(alloc, shards as usize)?;
        for shard in 0..shards {
            slots.push_reserved(Slot::new(Ruled::new(alloc, shelf, shard, shards)));
        }
        let mut all = Vec::with_capacity(alloc, seats as usize)?;
        for number in 0..seats {
            all.push_reserved(Seat::new(alloc, number, number * shards / seats));
        }
        let desk = Desk {
            shelf,
            seats,
            slots,
        };
        Ok((desk, all))
    }

    /// The number of shards. Takes no memory.
    pub fn shards(&self) -> u32
        ensures { result ≡ self.now.shards }
    {
        self.slots.len() as u32
    }

    /// Locks the shard with this number.
    fn lock<R: Wait>(&self, rt: &R, shard: usize) -> MutexGuard<'_, Ruled<'d, P>>
        requires { shard < self.now.shards }
        ensures { IsOnShard (length self.now.shelf) self.now.shards shard (mutex_guard_value result) }
    {
        let shelf = self.shelf.len();
        let shards = self.slots.len();
        let locked = self.slots[shard].lock(rt);
        if is_on_shard(&*locked, shelf, shards, shard) {
            return locked;
        }
        wait_for_ever(rt, locked, shelf, shards, shard)
    }

    /// Opens a saga on a shard by a definition on the shelf, and returns its number. The refusal is NoSuchDefinition if
    /// the definition is not on the shelf. The shard documents the other refusals.
    pub fn open_saga<R: Wait>(
        &self,
        rt: &R,
        seat: &mut Seat,
        shard: u32,
        definition: u32,
    ) -> Result<u32, OpenRefusal>
        requires { shard < self.now.shards }
        ensures known { OnOk result (definition < length self.now.shelf) }
        ensures ok { IfOk result
            (λ saga. GainsOn shard seat.old seat.new (mark.Open saga definition)) }
        ensures err { OnErr result (seat.new ≡ seat.old) }
        ensures why { IfErr result
            (λ why. OpenIsRefused (length self.now.shelf) self.now.shards shard definition why) }
    {
        let place = shard as usize;
        let mut locked = self.lock(rt, place);
        let ruled: &mut Ruled<'d, P> = &mut *locked;
        ruled.open_saga(&self.slots[place].sign, seat, definition)
    }

    /// Claims the first task of a shard that has one. It starts at the shard of the seat's last claim and continues
    /// with the next shards in a circle. For about a millisecond it skips shards at which other seats claim at the same
    /// time. Settled: each shard was settled when it was visited. Idle: no shard had a task, and at least one was not
    /// settled. A claim also allocates all memory that its end needs.
    pub fn claim<R: Wait>(&self, rt: &R, seat: &mut Seat) -> Result<Claim<'d>, AllocError>
        ensures ok { IfOk result (λ claim. Claims seat.old seat.new claim) }
        ensures err { OnErr result (seat.new ≡ seat.old) }
    {
        for look in 0..LOOKS {
            let mut round = self.round(seat);
            if let Some(claim) = self.try_claim(seat, &mut round)? {
                return Ok(claim);
            }
            pause(MOMENT << look.min(SHORT_LOOKS));
            if look >= SHORT_LOOKS {
                yield_now();
            }
        }
        let mut round = self.round(seat);
        self.wait_and_claim(rt, seat, &mut round)
    }

    /// A round that starts at the shard of the seat's last claim.
    fn round(&self, seat: &Seat) -> Round
        ensures { Begins self.now.shards result }
    {
        let count = self.slots.len();
        Round::new(count, seat.place() as usize % count)
    }

    /// The same, without waiting for a lock. Returns `None` if a shard may have a task and other seats use it.
    fn try_claim(&self, seat: &mut Seat, round: &mut Round) -> Result<Option<Claim<'d>>, AllocError>
        requires { Begins self.now.shards round.old }
        ensures some { IfOk result
            (λ o. IfSome o (λ claim. Claims seat.old seat.new claim)) }
        ensures none { IfOk result (λ o. IfNone o (seat.new ≡ seat.old)) }
        ensures found { IfOk result (λ o. IsFoundBy self.now.shards round.new o) }
        ensures err { OnErr result (seat.new ≡ seat.old) }
    {
        let count = self.slots.len();
        for turn in 0..count {
            let _ = turn;
            if let Some(claim) = self.slots[round.next()].try_claim(seat, round)? {
                return Ok(Some(claim));
            }
        }
        Ok(round.end(seat))
    }

    /// The same, which waits for the lock of each shard that may have a task.
    fn wait_and_claim<R: Wait>(
        &self,
        rt: &R,
        seat: &mut Seat,
        round: &mut Round,
    ) -> Result<Claim<'d>, AllocError>
        requires { Begins self.now.shards round.old }
        ensures ok { IfOk result (λ claim. Claims seat.old seat.new claim) }
        ensures found { IfOk result
            (λ claim. IsFoundBy self.now.shards round.new (Some claim)) }
        ensures err { OnErr result (seat.new ≡ seat.old) }
    {
        let count = self.slots.len();
        for turn in 0..count {
            let _ = turn;
            if let Some(claim) = self.slots[round.next()].claim(rt, seat, round)? {
                return Ok(claim);
            }
        }
        let Some(claim) = round.end(seat) else {
            unreachable!()
        };
        Ok(claim)
    }

    /// Whether a claim would return Idle, as far as the signs show without a lock.
    pub fn is_idle(&self) -> bool {
        let mut is_idle = false;
        for slot in &self.slots {
            match slot.sign.read() {
                Shown::Open => return false,
                Shown::Idle => is_idle = true,
                Shown::Over => {}
            }
        }
        is_idle
    }

    /// Reports that the action or the compensation of a job ended: it succeeded, or failed and is retried while the
    /// step has tries left. Takes no memory. A refusal returns the job. OtherSeat: another seat claimed it, or this
    /// seat has no outstanding claim. OtherAttempt: the job is not the next attempt of its step. After these come the
    /// refusals of the saga's book.
    pub fn report<R: Wait>(
        &self,
        rt: &R,
        seat: &mut Seat,
        job: Job<'d>,
        outcome: Outcome,
    ) -> Result<(), ReportRefused<'d>>
        requires { P.may job outcome }
        ensures own { OnOk result (HasClaimed job.entry.seat seat.old) }
        ensures ok { OnOk result (GainsEnd seat.old seat.new job.entry outcome) }
        ensures err { IfErr result (λ refused. seat.new ≡ seat.old) }
        ensures back { IfErr result (λ refused. refused.job ≡ job.entry) }
        ensures why { IfErr result
            (λ refused. OnShardOf self.now job.entry.saga
            (λ b. ReportIsRefused b seat.old job.entry refused.why)) }
    {
        let place = self.place_of(job.saga());
        let mut locked = self.lock(rt, place);
        let ruled: &mut Ruled<'d, P> = &mut *locked;
        ruled.report(&self.slots[place].sign, seat, job, outcome)
    }

    /// Ends a planning with an answer: adopts a verdict on the saga's present case. Takes no memory. A refusal returns
    /// job and verdict, with the cause as in [`Desk::report`].
    pub fn adopt<R: Wait>(
        &self,
        rt: &R,
        seat: &mut Seat,
        job: PlanJob,
        verdict: Verdict<'d>,
    ) -> Result<(), AdoptionRefused<'d>>
        ensures own { OnOk result (HasClaimed job.seat seat.old) }
        ensures ok { OnOk result
            (Gains seat.old seat.new (mark.Adopt job.saga) (seat.old.claims - 1)) }
        ensures err { IfErr result (λ refused. seat.new ≡ seat.old) }
        ensures back { IfErr result
            (λ refused. (refused.job ≡ job) × (refused.verdict ≡ verdict.entry)) }
        ensures why { IfErr result
            (λ refused. OnShardOf self.now job.saga
            (λ b. AdoptionIsRefused b seat.old job verdict.entry.case refused.why)) }
    {
        let place = self.place_of(job.saga());
        let mut locked = self.lock(rt, place);
        let ruled: &mut Ruled<'d, P> = &mut *locked;
        ruled.adopt(&self.slots[place].sign, seat, job, verdict)
    }

    /// Ends a planning without an answer. Takes no memory. A refusal returns the job, with the cause as in
    /// [`Desk::report`].
    pub fn give_back<R: Wait>(
        &self,
        rt: &R,
        seat: &mut Seat,
        job: PlanJob,
    ) -> Result<(), GiveBackRefused>
        ensures own { OnOk result (HasClaimed job.seat seat.old) }
        ensures ok { OnOk result
            (Gains seat.old seat.new (mark.DropPlan job.saga) (seat.old.claims - 1)) }
        ensures err { IfErr result (λ refused. seat.new ≡ seat.old) }
        ensures back { IfErr result (λ refused. refused.job ≡ job) }
        ensures why { IfErr result
            (λ refused. OnShardOf self.now job.saga
            (λ b. GivingBackIsRefused b seat.old job refused.why)) }
    {
        let place = self.place_of(job.saga());
        let mut locked = self.lock(rt, place);
        let ruled: &mut Ruled<'d, P> = &mut *locked;
        ruled.give_back(&self.slots[place].sign, seat, job)
    }

    /// Aborts a saga.
    pub fn abort<R: Wait>(&self, rt: &R, seat: &mut Seat, saga: u32) -> Result<(), SagaRefusal>
        requires { P.may_abort saga }
        ensures ok { OnOk result (Gains seat.old seat.new (mark.Abort saga) seat.old.claims) }
        ensures err { OnErr result (seat.new ≡ seat.old) }
        ensures why { IfErr result
            (λ why. OnShardOf self.now saga (λ b. SagaRefused b saga aborts why)) }
    {
        let place = self.place_of(saga);
        let mut locked = self.lock(rt, place);
        let ruled: &mut Ruled<'d, P> = &mut *locked;
        ruled.abort(&self.slots[place].sign, seat, saga)
    }

    /// The index of the shard that has the saga with this number.
    fn place_of(&self, saga: u32) -> usize
        ensures which { result ≡ saga % self.now.shards }
        ensures within { result < self.now.shards }
    {
        saga as usize % self.slots.len()
    }
}
