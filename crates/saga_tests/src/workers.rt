//! Runs in which actions wait for each other, which is possible only if that many run concurrently; and runs of
//! requests for definitions that do not exist.
use crate::samples::{Needs, lengths, shelf_of, told, within};
use saga_def::Definition;
use saga_desk::{Desk, Job, Seat};
use saga_history::Outcome;
use saga_work::{Actor, Bell, Stop, run_all, work};
use std::alloc::{Alloc, Global};
use std::process::Abort;
use std::sync::Wait;
use std::sync::atomic::{AtomicU64, Ordering};
use std::test::Fail;
use std::thread::{self, Threads};
use std::time::{Clock, Duration};

/// Actions that wait.
#[derive(Drop)]
struct Waiting<'a, R: Abort + Clock> {
    rt: &'a R,
    /// The number of actions that have started. If two sagas cross, it counts the compensations of saga 1.
    begun: AtomicU64,
    /// Each action waits until this number of actions have started.
    wanted: u64,
    /// After that, each action fails, and requests an abort, which is ignored after a failure.
    fails: bool,
    /// An exception is the first step's action, which starts before the others and takes a while.
    first_alone: bool,
    /// Instead of all that, the first action of saga 0 waits until a compensation of saga 1 has started, and the second
    /// action of saga 1 fails.
    crosses: bool,
    /// Or the actions of saga 0 wait for each other in pairs, and those of other sagas last until all of them have
    /// started.
    in_pairs: bool,
}

impl<R: Abort + Clock> Waiting<'_, R> {
    /// Waits until this number of actions have started, and returns whether they did. It gives up after 20 seconds or
    /// more, so that a busy processor is not mistaken for a missing worker.
    fn waits(&self, wanted: u64) -> bool {
        for turn in 0..120_000u32 {
            if self.begun.load(Ordering::SeqCst) >= wanted {
                return true;
            }
            if turn < 20_000 {
                thread::yield_now();
            } else {
                thread::sleep(self.rt, Duration::from_micros(200));
            }
        }
        false
    }

    /// An action of a pair. The second action of a pair, which the next pair needs, takes a little longer than the
    /// first, each time by another amount. So the worker of the first searches for a task while the second is reported.
    /// The other actions take three times as long as a pair may wait, because their reports would wake a worker that
    /// was left waiting.
    fn pair(&self, saga: u32, step: u16) {
        if saga > 0 {
            for _ in 0..300_000u32 {
                if self.begun.load(Ordering::SeqCst) >= self.wanted {
                    return;
                }
                thread::sleep(self.rt, Duration::from_micros(200));
            }
            return;
        }
        self.begun.fetch_add(1, Ordering::SeqCst);
        let is_second = step % 2 == 0;
        let wanted = step as u64 + if is_second { 1 } else { 2 };
        for _ in 0..50_000u32 {
            if self.begun.load(Ordering::SeqCst) >= wanted {
                break;
            }
        }
        assert!(self.rt; self.waits(wanted), "nobody comes to step {step}'s pair");
        if is_second {
            for _ in 0..step as u64 * 61 % 2048 {
                self.begun.load(Ordering::SeqCst);
            }
        }
    }
}

impl<R: Abort + Clock> Actor for Waiting<'_, R> {
    ghost may = { λ a j o. Unit {0} };

    ghost may_abort = { λ a j. Unit {0} };

    ghost must_abort = { λ a j. ⊥ };

    fn run(&self, job: &Job<'_>) -> Outcome {
        let fails = match (self.crosses, job.saga(), job.step()) {
            (_, saga, step) if self.in_pairs => {
                self.pair(saga, step);
                false
            }
            (true, 0, 0) => !self.waits(1),
            (true, 1, 1) => true,
            (true, _, _) => false,
            (false, _, 0) if self.first_alone => {
                for _ in 0..20_000u32 {
                    thread::yield_now();
                }
                false
            }
            (false, _, _) => {
                self.begun.fetch_add(1, Ordering::SeqCst);
                !self.waits(self.wanted) || self.fails
            }
        };
        if fails {
            Outcome::Failed
        } else {
            Outcome::Done
        }
    }

    fn undo(&self, job: &Job<'_>) -> Outcome {
        if job.saga() == 1 {
            self.begun.fetch_add(1, Ordering::SeqCst);
        }
        Outcome::Done
    }

    fn asks_abort(&self, _job: &Job<'_>) -> bool {
        self.fails
    }
}

/// A run of sagas of one definition with `steps` steps.
struct Row {
    name: &'static str,
    steps: u32,
    needs: Needs,
    sagas: usize,
    /// After the sagas, a definition is requested that does not exist.
    unknown: bool,
    workers: u32,
    shards: u32,
    wanted: u64,
    fails: bool,
    first_alone: bool,
    crosses: bool,
    in_pairs: bool,
    /// The number of runs.
    times: u32,
    ends: &'static str,
    /// The number of started actions at the end.
    begun: u64,
}

/// A run of one step of one saga, by one worker on one shard.
const ONE: Row = Row {
    name: "one step",
    steps: 1,
    needs: Needs::Nothing,
    sagas: 1,
    unknown: false,
    workers: 1,
    shards: 1,
    wanted: 1,
    fails: false,
    first_alone: false,
    crosses: false,
    in_pairs: false,
    times: 1,
    ends: "books 3 0",
    begun: 1,
};

const TWO: Row = Row {
    name: "two actions wait for each other",
    steps: 2,
    workers: 2,
    wanted: 2,
    ends: "books 5 0",
    begun: 2,
    ..ONE
};

const SIXTEEN: Row = Row {
    name: "sixteen of 64 actions wait for each other",
    steps: 64,
    workers: 16,
    wanted: 16,
    ends: "books 129 0",
    begun: 64,
    ..ONE
};

/// All actions have started before one fails, so each has failed when a plan is made.
const FAILING: Row = Row {
    name: "sixteen actions fail at once",
    steps: 16,
    workers: 16,
    wanted: 16,
    fails: true,
    ends: "books 35 0",
    begun: 16,
    ..ONE
};

/// Fifteen workers wait for the first step, and all must be woken when it is done.
const WOKEN: Row = Row {
    name: "sixteen actions wait for a first one, and then for each other",
    steps: 17,
    needs: Needs::First,
    workers: 16,
    wanted: 16,
    first_alone: true,
    ends: "books 35 0",
    begun: 16,
    ..ONE
};

const CROSSING: Row = Row {
    name: "an action waits for a compensation",
    steps: 2,
    needs: Needs::InARow,
    sagas: 2,
    workers: 2,
    crosses: true,
    ends: "books 14 0",
    ..ONE
};

/// Two workers need each other twenty times, while each of the others runs an action on its own shard. A worker of the
/// two that finds no task on the first shard looks at all other shards before it waits. A report on the first shard in
/// the meantime must prevent the wait. If the worker waits nevertheless, the other one is left alone.
const PAIRS: Row = Row {
    name: "actions in pairs, each of which begins where another worker has just found nothing",
    steps: 41,
    needs: Needs::Pairs,
    sagas: 15,
    workers: 16,
    shards: 15,
    wanted: 41,
    in_pairs: true,
    times: 100,
    ends: "books 83 83",
    begun: 41,
    ..ONE
};

const ROWS: &[Row] = &[
    ONE,
    TWO,
    Row { shards: 2, ..TWO },
    SIXTEEN,
    Row {
        shards: 2,
        ..SIXTEEN
    },
    FAILING,
    Row {
        shards: 2,
        ..FAILING
    },
    WOKEN,
    Row { shards: 2, ..WOKEN },
    WOKEN,
    PAIRS,
    CROSSING,
    Row {
        shards: 2,
        ends: "books 5 9",
        ..CROSSING
    },
    Row {
        name: "a definition that is not there",
        unknown: true,
        ends: "Open(1, NoSuchDefinition)",
        begun: 0,
        ..ONE
    },
    Row {
        name: "more sagas than a book may have",
        sagas: 1001,
        ends: "Open(1000, Full)",
        begun: 0,
        ..ONE
    },
    Row {
        name: "more sagas than nine books may have",
        sagas: 9001,
        shards: 9,
        ends: "Open(9000, Full)",
        begun: 0,
        ..ONE
    },
    Row {
        name: "no saga",
        sagas: 0,
        ends: "books 0 0",
        begun: 0,
        ..ONE
    },
];

/// The number of sagas that are aborted while a plan is in progress.
const LATE: u32 = 32;

/// The result of a run.
fn end_of<R: Abort + Clock + Threads + Wait + Sync + Alloc<A = Global>>(
    rt: &R,
    shelf: &[Definition],
    asks: &[u32],
    row: &Row,
    actor: &Waiting<'_, R>,
) -> String {
    let workers = within(row.workers);
    let shards = within(row.shards);
    match run_all(rt, rt.alloc(), shelf, asks, workers, shards, actor) {
        Ok(run) if run.stopped.is_none() => lengths(rt, run.books.as_slice()),
        Ok(run) => told(rt, &run.stopped),
        Err(fault) => told(rt, &fault),
    }
}

/// Aborts each saga that a worker has started, a little later.
fn abort_all<R: Abort + Clock + Wait>(
    rt: &R,
    desk: &Desk<'_>,
    seat: Seat,
    actor: &Waiting<'_, R>,
) -> Seat {
    let mut seat = seat;
    for saga in 0..LATE {
        if !actor.waits(saga as u64 + 1) {
            break;
        }
        for _ in 0..saga % 16 {
            thread::yield_now();
        }
        let _ = desk.abort(rt, &mut seat, saga);
    }
    seat
}

/// A worker runs sagas whose first action fails, and plans each of them, while the other seat aborts it: a plan that
/// comes too late is given back, and made again.
fn abort_while_planned<R: Abort + Clock + Threads + Wait + Sync + Alloc<A = Global>>(rt: &R) {
    let alloc = rt.alloc();
    let shelf = shelf_of(rt, 512, 1, Needs::InARow);
    let (desk, mut seats) = Desk::open(alloc, &shelf, 2, 1).expect(rt, "a desk");
    let first = seats.first_mut().expect(rt, "a seat");
    for _ in 0..LATE {
        let _ = desk.open_saga(rt, first, 0, 0).expect(rt, "a saga");
    }
    let bell = Bell::new();
    let actor = Waiting {
        rt,
        begun: AtomicU64::new(0),
        wanted: 0,
        fails: true,
        first_alone: false,
        crosses: false,
        in_pairs: false,
    };
    let done = thread::map_vec(
        rt,
        seats,
        &|seat: Seat| -> (Seat, Option<Stop>) {
            if seat.number() == 0 {
                work(rt, alloc, &desk, &bell, seat, &actor)
            } else {
                (abort_all(rt, &desk, seat, &actor), None)
            }
        },
    )
    .expect(rt, "memory");
    let mut back = Vec::new(alloc);
    for (seat, stop) in done {
        assert_eq!(rt; stop, None);
        back.push(seat).expect(rt, "room");
    }
    let books = desk.finish(back).ok().expect(rt, "books");
    for book in &books {
        assert!(rt; book.settled());
    }
}

fn check<R: Abort + Clock + Threads + Wait + Sync + Alloc<A = Global>>(rt: &R, row: &Row) {
    let shelf = shelf_of(rt, row.steps, 1, row.needs);
    let mut asks = vec![in rt.alloc(); 0u32; row.sagas].expect(rt, "sagas");
    if row.unknown {
        asks.push(1).expect(rt, "a saga");
    }
    let actor = Waiting {
        rt,
        begun: AtomicU64::new(0),
        wanted: row.wanted,
        fails: row.fails,
        first_alone: row.first_alone,
        crosses: row.crosses,
        in_pairs: row.in_pairs,
    };
    let end = end_of(rt, &shelf, &asks, row, &actor);
    assert_eq!(rt; end.as_str(), row.ends, "{}", row.name);
    assert_eq!(rt;
        actor.begun.load(Ordering::SeqCst),
        row.begun,
        "{}",
        row.name
    );
}

#[test]
fn runs(rt: HostRuntime) -> Result<(), Fail> {
    for row in ROWS {
        for _ in 0..row.times {
            check(&rt, row);
        }
    }
    abort_while_planned(&rt);
    Ok(())
}
