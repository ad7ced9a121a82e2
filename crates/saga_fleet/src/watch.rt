//! The state of a log while its record is read. It consists only of numbers.
ghost use Rattle.std.specs.Prelude.{◌≡◌, ◌↔◌, ◌+◌, ◌^◌, ◌≤◌, ◌<◌, ℕ, Bool, IsTrue, IfOk, OnOk, List, Some, None, length, if◌then◌else◌};
ghost use Rattle.saga_fleet.specs.Fleet.{IsDone, IsIdle, IsSent, nothing};
ghost use Rattle.saga_fleet.specs.Records.{AreWithin, CountFails, DeedFails, Fails, IsAnswer, IsRecordFrom, May, MayFollow, Says, did, digests_after, digests_did, is_yes, last_digest, log_after, now_after, only, tallies_after};
ghost use Rattle.saga_fleet.specs.Told.{Holds, HoldsUnlessCut};
ghost use Rattle.saga_fleet.specs.declared.events.Deed.TheVariants.{Heard, Written};
ghost use Rattle.saga_fleet.specs.declared.events.Event.TheVariants.{Did, TookOver};

use crate::answers::RecordAnswer;
use crate::events::{Deed, Event, Stage};
use crate::reasons::Reason;
use std::alloc::{AllocError, Global};

/// The state of a log: its epoch, the number of chunks on each server that may take over, and the number of failovers.
#[derive(Clone, Copy, Debug, PartialEq, Eq)]
pub struct Now {
    pub epoch: u64,
    pub shipped: u64,
    pub servers: u64,
}

/// The state of a session: the server and the epoch of its takeover, the numbers of chunks that it knows and that it
/// has requested, and the stage of its request. `digest` is that of the requested chunk, if there is exactly one.
#[derive(Clone, Copy, Debug, PartialEq, Eq)]
pub struct Tally {
    pub server: u64,
    pub epoch: u64,
    pub known: u64,
    pub asked: u64,
    pub digest: Option<u64>,
    pub stage: Stage,
}

impl Stage {
    fn is_idle(self) -> bool
        ensures { IsTrue result ↔ IsIdle self }
    {
        match self {
            Stage::Idle => true,
            Stage::Sent | Stage::Done | Stage::Refused => false,
        }
    }

    fn is_sent(self) -> bool
        ensures { IsTrue result ↔ IsSent self }
    {
        match self {
            Stage::Sent => true,
            Stage::Idle | Stage::Done | Stage::Refused => false,
        }
    }

    fn is_done(self) -> bool
        ensures { IsTrue result ↔ IsDone self }
    {
        match self {
            Stage::Done => true,
            Stage::Idle | Stage::Sent | Stage::Refused => false,
        }
    }
}

impl Tally {
    /// Whether each server that may take over has the requested chunks.
    fn is_safe(self, now: Now) -> bool
        ensures { IsTrue result ↔ (self.known + self.asked ≤ now.shipped) }
    {
        self.known <= now.shipped && self.asked <= now.shipped - self.known
    }

    /// The reason against a commit with this digest after `first` chunks.
    fn against_commit(self, now: Now, digests: &[u64], first: u64, digest: u64) -> Option<Reason>
        ensures { (b : Bool) → Says result (May b now digests.now self (Written first digest))
            (DeedFails b now digests.now self (Written first digest)) }
    {
        if !self.stage.is_sent() {
            Some(Reason::NothingSent)
        } else if self.server != now.servers {
            Some(Reason::OtherServer)
        } else if self.epoch != now.epoch {
            Some(Reason::OldEpoch)
        } else if first != digests.len() as u64 {
            Some(Reason::OtherPlace)
        } else if self.digest != Some(digest) {
            Some(Reason::OtherContent)
        } else {
            None
        }
    }

    /// The reason against an answer.
    fn against_answer(self, synchronous: bool, now: Now) -> Option<Reason>
        ensures { (ds : List ℕ) → Says result (May synchronous now ds self Heard)
            (DeedFails synchronous now ds self Heard) }
    {
        if !self.stage.is_done() {
            Some(Reason::NothingDone)
        } else if self.server != now.servers {
            Some(Reason::OtherServer)
        } else if synchronous && !self.is_safe(now) {
            Some(Reason::NotShipped)
        } else {
            None
        }
    }

    /// The reason against a deed of the session.
    fn against(self, synchronous: bool, now: Now, digests: &[u64], deed: Deed) -> Option<Reason>
        ensures { Says result (May synchronous now digests.now self deed)
            (DeedFails synchronous now digests.now self deed) }
    {
        match deed {
            Deed::Decided(_) => against(self.stage.is_idle(), Reason::NotIdle),
            Deed::Written(first, digest) => self.against_commit(now, digests, first, digest),
            Deed::TurnedDown => against(self.stage.is_sent(), Reason::NothingSent),
            Deed::Heard => self.against_answer(synchronous, now),
            Deed::Told(n) => against(n <= self.known, Reason::NotKnown),
        }
    }

    /// The session after a deed.
    fn after(self, deed: Deed) -> Tally
        requires { self.known + self.asked < 2 ^ 64 }
        ensures { result ≡ did self deed }
    {
        match deed {
            Deed::Decided(digest) => Tally {
                asked: 1,
                digest: Some(digest),
                stage: Stage::Sent,
                ..self
            },
            Deed::Written(_, _) => Tally {
                stage: Stage::Done,
                ..self
            },
            Deed::TurnedDown => Tally {
                stage: Stage::Refused,
                ..self
            },
            Deed::Heard => Tally {
                known: self.known + self.asked,
                asked: 0,
                digest: None,
                stage: Stage::Idle,
                ..self
            },
            Deed::Told(_) => self,
        }
    }
}

/// Returns this reason, or `None` if the condition holds.
fn against(holds: bool, reason: Reason) -> Option<Reason>
    ensures { result ≡ (if holds then None else Some reason) }
{
    if holds { None } else { Some(reason) }
}

/// The digest of the last chunk, or 0 if there is none.
fn last_of(digests: &[u64]) -> u64
    ensures { result ≡ last_digest digests.now }
{
    match digests.last() {
        Some(digest) => *digest,
        None => 0,
    }
}

/// The digest of the only chunk.
fn only_of(digests: &[u64]) -> Option<u64>
    ensures { result ≡ only digests.now }
{
    match digests {
        [digest] => Some(*digest),
        _ => None,
    }
}

/// The reason against a takeover.
fn against_takeover(now: Now, digests: &[u64], epoch: u64, read: u64, digest: u64) -> Option<Reason>
    ensures { (b : Bool) (ts : List Tally) → Says result (MayFollow b now digests.now ts (TookOver epoch read digest))
        (Fails b now digests.now ts (TookOver epoch read digest)) }
{
    if epoch == 0 || epoch - 1 != now.epoch {
        Some(Reason::EpochNotNext)
    } else if read != digests.len() as u64 {
        Some(Reason::OtherLength)
    } else if digest != last_of(digests) {
        Some(Reason::OtherContent)
    } else {
        None
    }
}

/// The reason against this number of chunks on the servers that may take over.
fn against_count(now: Now, digests: &[u64], n: u64) -> Option<Reason>
    ensures { Says result ((now.shipped ≤ n) × (n ≤ length digests.now)) (CountFails now digests.now n) }
{
    if n < now.shipped {
        Some(Reason::FewerThanShipped)
    } else if n > digests.len() as u64 {
        Some(Reason::MoreThanWritten)
    } else {
        None
    }
}

/// The state of a log and of its sessions.
#[derive(Drop)]
struct Watch {
    log: Now,
    /// The digest of each chunk.
    digests: Vec<u64>,
    tallies: Vec<Tally>,
}

impl Watch {
    /// The reason against an event.
    fn against(&self, synchronous: bool, event: Event) -> Option<Reason>
        ensures { Says result (MayFollow synchronous self.now.log self.now.digests.items self.now.tallies.items event)
            (Fails synchronous self.now.log self.now.digests.items self.now.tallies.items event) }
    {
        let digests = self.digests.as_slice();
        match event {
            Event::TookOver(epoch, read, digest) => {
                against_takeover(self.log, digests, epoch, read, digest)
            }
            Event::Did(session, deed) => match self.tallies.get(session) {
                Some(tally) => tally.against(synchronous, self.log, digests, deed),
                None => Some(Reason::NoSuchSession),
            },
            Event::Shipped(n) | Event::FailedOver(n, _) => against_count(self.log, digests, n),
        }
    }

    /// Applies a takeover by a new session.
    fn take_over(&mut self, epoch: u64, read: u64) -> Result<(), AllocError>
        ensures now { OnOk result (self.new.log ≡ now_after self.old.log (TookOver epoch read 0)) }
        ensures digests { OnOk result (self.new.digests.items ≡ self.old.digests.items) }
        ensures tallies { OnOk result (self.new.tallies.items ≡ tallies_after self.old.log self.old.digests.items self.old.tallies.items (TookOver epoch read 0)) }
    {
        let tally = Tally {
            server: self.log.servers,
            epoch,
            known: 0,
            asked: read,
            digest: only_of(self.digests.as_slice()),
            stage: Stage::Done,
        };
        self.tallies.push(tally)?;
        self.log.epoch = epoch;
        Ok(())
    }

    /// Applies a deed of a session.
    fn see_deed(&mut self, session: usize, deed: Deed) -> Result<(), AllocError>
        requires begun { session < length self.old.tallies.items }
        requires within { AreWithin (2 ^ 63) self.old.log self.old.digests.items self.old.tallies.items }
        ensures now { OnOk result (self.new.log ≡ self.old.log) }
        ensures digests { OnOk result (self.new.digests.items ≡ digests_did self.old.digests.items deed) }
        ensures tallies { OnOk result (self.new.tallies.items ≡ tallies_after self.old.log self.old.digests.items self.old.tallies.items (Did session deed)) }
    {
        let after = self.tallies[session].after(deed);
        if let Deed::Written(_, digest) = deed {
            self.digests.push(digest)?;
        }
        self.tallies[session] = after;
        Ok(())
    }

    /// Applies an event that is allowed.
    fn see(&mut self, synchronous: bool, event: Event) -> Result<(), AllocError>
        requires allowed { MayFollow synchronous self.old.log self.old.digests.items self.old.tallies.items event }
        requires within { AreWithin (2 ^ 63) self.old.log self.old.digests.items self.old.tallies.items }
        ensures now { OnOk result (self.new.log ≡ now_after self.old.log event) }
        ensures digests { OnOk result (self.new.digests.items ≡ digests_after self.old.digests.items event) }
        ensures tallies { OnOk result (self.new.tallies.items ≡ tallies_after self.old.log self.old.digests.items self.old.tallies.items event) }
    {
        let _ = synchronous;
        match event {
            Event::TookOver(epoch, read, _) => self.take_over(epoch, read),
            Event::Did(session, deed) => self.see_deed(session, deed),
            Event::Shipped(n) => {
                self.log.shipped = n;
                Ok(())
            }
            Event::FailedOver(n, epoch) => {
                self.digests.truncate(n as usize);
                self.log.epoch = epoch;
                self.log.servers += 1;
                Ok(())
            }
        }
    }
}

/// Audits a record: decides whether the events record a run of allowed moves from the creation of the log on. Otherwise
/// the result is the first event that is not allowed, and the reason. Takes time and memory linear in the number of
/// events.
#[tactic(auto, using(crate::proofs::Counts::more))]
pub fn audit_record(
    alloc: Global,
    synchronous: bool,
    events: &[Event],
) -> Result<RecordAnswer, AllocError>
    ensures yes { IfOk result (λ answer. IsTrue (is_yes answer) ↔ IsRecordFrom synchronous nothing events.now) }
    ensures answer { IfOk result (IsAnswer synchronous events.now) }
    // if the result is yes, the database has every log on which an acknowledged text rests, except what a server lacked
    // that took over later
    ensures told { IfOk result (λ answer. IsTrue (is_yes answer) → HoldsUnlessCut (log_after synchronous nothing events.now)) }
    ensures told_all { IfOk result (λ answer. IsTrue (is_yes answer) → IsTrue synchronous → Holds (log_after synchronous nothing events.now)) }
{
    let mut watch = Watch {
        log: Now {
            epoch: 0,
            shipped: 0,
            servers: 0,
        },
        digests: Vec::new(alloc),
        tallies: Vec::new(alloc),
    };
    for position in 0..events.len() {
        let event = events[position];
        if let Some(reason) = watch.against(synchronous, event) {
            return Ok(RecordAnswer::No { position, reason });
        }
        watch.see(synchronous, event)?;
    }
    let sessions = watch.tallies.len();
    let chunks = watch.digests.len();
    let failovers = watch.log.servers as usize;
    Ok(RecordAnswer::Yes {
        sessions,
        chunks,
        failovers,
        events: events.len(),
    })
}
