//! Runs with an actor that counts its calls. The calls are compared with the books: each attempt is made once, each job
//! that succeeded is followed by one question about an abort, and no saga is aborted without a request. A requested
//! abort may be missing only if other workers ended the saga before it.
use crate::samples::{Needs, shelf_of, within};
use saga_core::Book;
use saga_desk::Job;
use saga_history::{Event, Outcome};
use saga_work::{Actor, run_all};
use std::alloc::{Alloc, Global};
use std::process::Abort;
use std::sync::Wait;
use std::sync::atomic::{AtomicU64, Ordering};
use std::test::Fail;
use std::thread::Threads;

/// The number of counters of a saga: three for each action and each compensation of three steps.
const PLACES: usize = 18;

/// The index of an attempt among the counters of all sagas.
fn place(saga: u32, step: u16, is_undo: bool, attempt: u64) -> usize {
    let attempt = attempt.min(3) as usize;
    saga as usize * PLACES + step as usize * 6 + is_undo as usize * 3 + attempt
}

/// How often each attempt was made, and how often an abort after it was asked about and requested.
#[derive(Drop)]
struct Counting {
    attempts: Vec<AtomicU64>,
    asked: Vec<AtomicU64>,
    aborts: Vec<AtomicU64>,
}

fn count(counts: &[AtomicU64], place: usize) {
    if let Some(count) = counts.get(place) {
        count.fetch_add(1, Ordering::SeqCst);
    }
}

impl Counting {
    /// The last step of every third saga fails. The first step of every second saga and the compensations of every
    /// fifth saga are missed once.
    fn outcome(&self, job: &Job<'_>) -> Outcome {
        let (saga, step, attempt) = (job.saga(), job.step(), job.attempt());
        count(&self.attempts, place(saga, step, job.is_undo(), attempt));
        let fails = if job.is_undo() {
            saga % 5 == 0 && attempt == 1
        } else {
            step == 2 && saga % 3 == 0 || step == 0 && saga % 2 == 1 && attempt == 1
        };
        if fails {
            Outcome::Failed
        } else {
            Outcome::Done
        }
    }
}

impl Actor for Counting {
    ghost may = { λ a j o. Unit {0} };

    ghost may_abort = { λ a j. Unit {0} };

    ghost must_abort = { λ a j. ⊥ };

    fn run(&self, job: &Job<'_>) -> Outcome {
        self.outcome(job)
    }

    fn undo(&self, job: &Job<'_>) -> Outcome {
        self.outcome(job)
    }

    /// An abort is requested after the first step of every seventh saga, and after the first compensation of every
    /// seventh saga.
    fn asks_abort(&self, job: &Job<'_>) -> bool {
        let (saga, step) = (job.saga(), job.step());
        let at = place(saga, step, job.is_undo(), job.attempt());
        count(&self.asked, at);
        let asks = if job.is_undo() {
            step == 1 && saga % 7 == 3
        } else {
            step == 0 && saga % 7 == 1
        };
        if asks {
            count(&self.aborts, saga as usize);
        }
        asks
    }
}

fn zeros<R: Abort + Alloc<A = Global>>(rt: &R, len: usize) -> Vec<AtomicU64> {
    let mut counts = Vec::new(rt.alloc());
    for _ in 0..len {
        counts.push(AtomicU64::new(0)).expect(rt, "room");
    }
    counts
}

/// Counts the events of the books: each end of an action or a compensation is its next attempt.
fn counted<R: Abort + Alloc<A = Global>>(rt: &R, sagas: u32, books: &[Book<'_>]) -> Counting {
    let places = sagas as usize * PLACES;
    let held = Counting {
        attempts: zeros(rt, places),
        asked: zeros(rt, places),
        aborts: zeros(rt, sagas as usize),
    };
    for book in books {
        for event in book.history() {
            let (saga, step, is_undo, is_done) = match event {
                Event::Commit(saga, step) => (*saga, *step, false, true),
                Event::Missed(saga, step) | Event::Fail(saga, step) => (*saga, *step, false, false),
                Event::Undone(saga, step) => (*saga, *step, true, true),
                Event::UndoMissed(saga, step) | Event::UndoFail(saga, step) => {
                    (*saga, *step, true, false)
                }
                Event::Abort(saga) => {
                    count(&held.aborts, *saga as usize);
                    continue;
                }
                _ => continue,
            };
            for attempt in 1..3u64 {
                let at = place(saga, step, is_undo, attempt);
                let before = held
                    .attempts
                    .get(at)
                    .map_or(0, |n| n.load(Ordering::SeqCst));
                if before == 0 {
                    count(&held.attempts, at);
                    if is_done {
                        count(&held.asked, at);
                    }
                    break;
                }
            }
        }
    }
    held
}

/// The numbers of sagas, workers and shards of each run.
const RUNS: &[(u32, u32, u32)] = &[(1, 1, 1), (8, 1, 1), (300, 4, 3), (300, 16, 16)];

fn check<R: Abort + Threads + Wait + Sync + Alloc<A = Global>>(
    rt: &R,
    sagas: u32,
    workers: u32,
    shards: u32,
) {
    let shelf = shelf_of(rt, 3, 2, Needs::InARow);
    let asks = vec![in rt.alloc(); 0u32; sagas as usize].expect(rt, "sagas");
    let places = sagas as usize * PLACES;
    let actor = Counting {
        attempts: zeros(rt, places),
        asked: zeros(rt, places),
        aborts: zeros(rt, sagas as usize),
    };
    let workers = within(workers);
    let shards = within(shards);
    let run = run_all(rt, rt.alloc(), &shelf, &asks, workers, shards, &actor).expect(rt, "a run");
    assert!(rt; run.stopped.is_none());
    let held = counted(rt, sagas, &run.books);
    let alone = workers == 1;
    for (name, told, held, may_be_late) in [
        ("attempts", &actor.attempts, &held.attempts, false),
        ("asked", &actor.asked, &held.asked, false),
        ("aborts", &actor.aborts, &held.aborts, !alone),
    ] {
        for (at, (a, b)) in told.iter().zip(held.iter()).enumerate() {
            let (a, b) = (a.load(Ordering::SeqCst), b.load(Ordering::SeqCst));
            let as_told = a == b || may_be_late && b < a;
            assert!(rt;
                as_told,
                "{name} at {at} of {sagas} sagas: {a} told, {b} held"
            );
        }
    }
}

#[test]
fn calls(rt: HostRuntime) -> Result<(), Fail> {
    for (sagas, workers, shards) in RUNS {
        check(&rt, *sagas, *workers, *shards);
    }
    Ok(())
}
