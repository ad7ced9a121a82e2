//! Desks, call by call: reports of jobs that another seat claimed, verdicts that come too late, and desks that are
//! ended with foreign seats.
use crate::samples::{Needs, lengths, shelf_of, text, told, within};
use saga_check::verify;
use saga_desk::{AdoptionRefused, Claim, Desk, FinishRefused, Seat};
use saga_history::Outcome;
use saga_plan::plan;
use std::alloc::{Alloc, Global};
use std::sync::Wait;
use std::{process, test};

/// A call by a seat of a desk.
enum Call {
    /// Opens a saga on a shard, with a definition.
    Open(u32, u32),
    /// Claims a task.
    Take,
    /// Ends a claim with success, given by its index among all claims: a job is done, or a plan is adopted.
    Do(usize),
    /// Ends a claim with failure: the job failed, or the plan is given back.
    Fail(usize),
    Abort(u32),
}

use Call::{Abort, Do, Fail, Open, Take};

/// Two desks with two seats each, with a definition of `steps` steps without needs. The seats of the first desk are 0
/// and 1, those of the second desk 2 and 3.
struct Talk {
    name: &'static str,
    steps: u32,
    tries: u64,
    shards: u32,
    /// The seat, its call, and the expected result.
    calls: &'static [(usize, Call, &'static str)],
    /// The indices in the receipts of a seat at the end.
    numbers: &'static [(usize, &'static [usize])],
    /// The seats with which the first desk is ended, and the expected result, until it has ended.
    ends: &'static [(&'static [usize], &'static str)],
}

const OK: &str = "Ok(())";

/// Each seat of the first desk opens a saga on both shards, in opposite orders. Seat 2 of the second desk has the same
/// receipts as seat 0, but in an order that contradicts the histories.
const CROSSING: &[(usize, Call, &str)] = &[
    (0, Open(0, 0), "Ok(0)"),
    (1, Open(0, 0), "Ok(2)"),
    (1, Open(1, 0), "Ok(1)"),
    (0, Open(1, 0), "Ok(3)"),
    (3, Open(1, 0), "Ok(1)"),
    (2, Open(1, 0), "Ok(3)"),
    (2, Open(0, 0), "Ok(0)"),
];

const TALKS: &[Talk] = &[
    Talk {
        name: "a saga from its opening to its end",
        steps: 1,
        tries: 1,
        shards: 1,
        calls: &[
            (0, Take, "settled"),
            (0, Open(0, 1), "Err(NoSuchDefinition)"),
            (0, Open(0, 0), "Ok(0)"),
            (0, Take, "run 0 0 1"),
            (0, Take, "idle"),
            (0, Do(1), OK),
            (0, Take, "settled"),
        ],
        numbers: &[(0, &[0, 1, 2]), (1, &[])],
        ends: &[(&[1, 0], "books 3 0")],
    },
    Talk {
        name: "a job of another seat",
        steps: 2,
        tries: 1,
        shards: 1,
        calls: &[
            (0, Open(0, 0), "Ok(0)"),
            (0, Take, "run 0 0 1"),
            (1, Do(0), "OtherSeat"),
            (1, Take, "run 0 1 1"),
            (1, Do(0), "OtherSeat"),
            (0, Do(0), OK),
            (0, Do(1), "OtherSeat"),
            (1, Do(1), OK),
            (0, Take, "settled"),
        ],
        numbers: &[(0, &[0, 1, 3]), (1, &[2, 4])],
        ends: &[(&[0, 1], "books 5 0")],
    },
    Talk {
        name: "jobs of another desk: of a step that was reported, and of a saga that this desk has not",
        steps: 2,
        tries: 1,
        shards: 2,
        calls: &[
            (0, Open(0, 0), "Ok(0)"),
            (2, Open(0, 0), "Ok(0)"),
            (2, Open(1, 0), "Ok(1)"),
            (2, Take, "run 0 0 1"),
            (0, Do(0), "OtherSeat"),
            (0, Take, "run 0 0 1"),
            (0, Do(1), OK),
            (0, Take, "run 0 1 1"),
            (0, Do(0), "Book(NotTaken)"),
            (2, Take, "run 0 1 1"),
            (2, Take, "run 1 0 1"),
            (0, Do(4), "Book(NoSuchSaga)"),
            (0, Do(2), OK),
            (0, Take, "settled"),
        ],
        numbers: &[(0, &[0, 1, 2, 3, 4]), (2, &[0, 0, 1, 2, 1])],
        ends: &[(&[0, 1], "books 5 0")],
    },
    Talk {
        name: "two seats on two shards, of which the first has no saga",
        steps: 1,
        tries: 1,
        shards: 2,
        calls: &[
            (0, Open(1, 0), "Ok(1)"),
            (0, Open(1, 0), "Ok(3)"),
            (0, Take, "run 1 0 1"),
            (1, Take, "run 3 0 1"),
            (0, Take, "idle"),
            (0, Do(0), OK),
            (1, Do(1), OK),
            (0, Take, "settled"),
        ],
        numbers: &[(0, &[0, 1, 2, 4]), (1, &[3, 5])],
        ends: &[(&[0, 1], "books 0 6")],
    },
    Talk {
        name: "each seat begins at its own shard",
        steps: 1,
        tries: 1,
        shards: 2,
        calls: &[
            (0, Open(0, 0), "Ok(0)"),
            (0, Open(1, 0), "Ok(1)"),
            (1, Take, "run 1 0 1"),
            (0, Take, "run 0 0 1"),
        ],
        numbers: &[(0, &[0, 0, 1]), (1, &[1])],
        ends: &[(&[0, 1], "books 2 2")],
    },
    Talk {
        name: "the first shard is busy, and the last is settled",
        steps: 1,
        tries: 1,
        shards: 3,
        calls: &[
            (0, Open(0, 0), "Ok(0)"),
            (0, Open(2, 0), "Ok(2)"),
            (0, Take, "run 0 0 1"),
            (1, Take, "run 2 0 1"),
            (1, Do(1), OK),
            (0, Take, "idle"),
            (1, Take, "idle"),
            (0, Do(0), OK),
            (1, Take, "settled"),
        ],
        numbers: &[(0, &[0, 0, 1, 2]), (1, &[1, 2])],
        ends: &[(&[0, 1], "books 3 0")],
    },
    Talk {
        name: "a seat aborts a saga of another shard than its own",
        steps: 1,
        tries: 1,
        shards: 3,
        calls: &[
            (0, Open(1, 0), "Ok(1)"),
            (0, Open(1, 0), "Ok(4)"),
            (0, Abort(4), OK),
            (0, Abort(7), "Err(NoSuchSaga)"),
            (1, Take, "run 1 0 1"),
            (1, Do(0), OK),
            (1, Take, "plan 4"),
            (1, Do(1), OK),
            (0, Take, "settled"),
        ],
        numbers: &[(0, &[0, 1, 2]), (1, &[3, 4, 5, 6])],
        ends: &[(&[0, 1], "books 0 7")],
    },
    Talk {
        name: "each place and mark of the other desk's seat fits, but the orders of the two seats cross",
        steps: 1,
        tries: 1,
        shards: 2,
        calls: CROSSING,
        numbers: &[(0, &[0, 1]), (1, &[1, 0]), (2, &[1, 0])],
        ends: &[(&[2, 1], "torn")],
    },
    Talk {
        name: "the same desk with its own seats",
        steps: 1,
        tries: 1,
        shards: 2,
        calls: CROSSING,
        numbers: &[(0, &[0, 1]), (1, &[1, 0])],
        ends: &[(&[0, 1], "books 2 2")],
    },
    Talk {
        name: "a seat is missing, a stranger stands in its place, and an unused seat of the other desk",
        steps: 1,
        tries: 1,
        shards: 1,
        calls: &[(0, Open(0, 0), "Ok(0)")],
        numbers: &[(0, &[0]), (1, &[]), (2, &[])],
        ends: &[
            (&[1], "missing"),
            (&[0, 2], "stranger"),
            (&[0, 1, 2], "stranger"),
            (&[2, 1], "torn"),
        ],
    },
    Talk {
        name: "a plan is given back, and made again",
        steps: 1,
        tries: 1,
        shards: 1,
        calls: &[
            (0, Open(0, 0), "Ok(0)"),
            (0, Open(0, 0), "Ok(1)"),
            (0, Take, "run 0 0 1"),
            (0, Fail(0), OK),
            (0, Take, "plan 0"),
            (1, Take, "run 1 0 1"),
            (1, Do(1), "OtherSeat"),
            (1, Fail(1), "OtherSeat"),
            (0, Fail(1), OK),
            (0, Take, "plan 0"),
            (0, Do(3), OK),
            (1, Do(2), OK),
            (0, Take, "settled"),
        ],
        numbers: &[(0, &[0, 1, 2, 3, 4, 6, 7, 8]), (1, &[5, 9])],
        ends: &[(&[0, 1], "books 10 0")],
    },
    Talk {
        name: "a saga is aborted while it is planned: the adoption is stale",
        steps: 1,
        tries: 1,
        shards: 1,
        calls: &[
            (0, Open(0, 0), "Ok(0)"),
            (0, Take, "run 0 0 1"),
            (0, Fail(0), OK),
            (0, Take, "plan 0"),
            (1, Abort(0), OK),
            (1, Abort(0), "Err(NotNow)"),
            (1, Abort(3), "Err(NoSuchSaga)"),
            (0, Do(1), "Book(Stale)"),
            (0, Take, "idle"),
            (0, Fail(1), OK),
            (1, Take, "plan 0"),
            (1, Do(3), OK),
            (1, Abort(0), "Err(NotNow)"),
            (0, Take, "settled"),
        ],
        numbers: &[(0, &[0, 1, 2, 3, 5]), (1, &[4, 6, 7])],
        ends: &[(&[0, 1], "books 8 0")],
    },
    Talk {
        name: "a saga is aborted between a claim and its report: its step is compensated, in two attempts that fail, and stands",
        steps: 2,
        tries: 2,
        shards: 1,
        calls: &[
            (0, Open(0, 0), "Ok(0)"),
            (0, Take, "run 0 0 1"),
            (1, Abort(0), OK),
            (1, Take, "idle"),
            (0, Do(0), OK),
            (1, Take, "plan 0"),
            (1, Do(2), OK),
            (1, Take, "undo 0 0 1"),
            (1, Fail(3), OK),
            (0, Take, "undo 0 0 2"),
            (0, Fail(4), OK),
            (0, Take, "plan 0"),
            (0, Do(5), OK),
            (1, Take, "settled"),
        ],
        numbers: &[(0, &[0, 1, 3, 8, 9, 10, 11]), (1, &[2, 4, 5, 6, 7])],
        ends: &[(&[0, 1], "books 12 0")],
    },
    Talk {
        name: "three attempts, of which the last one is done",
        steps: 1,
        tries: 3,
        shards: 1,
        calls: &[
            (0, Open(0, 0), "Ok(0)"),
            (0, Take, "run 0 0 1"),
            (0, Fail(0), OK),
            (1, Take, "run 0 0 2"),
            (1, Fail(1), OK),
            (0, Take, "run 0 0 3"),
            (0, Do(2), OK),
            (0, Take, "settled"),
        ],
        numbers: &[(0, &[0, 1, 2, 5, 6]), (1, &[3, 4])],
        ends: &[(&[0, 1], "books 7 0")],
    },
    Talk {
        name: "a compensation that is done",
        steps: 1,
        tries: 1,
        shards: 1,
        calls: &[
            (0, Open(0, 0), "Ok(0)"),
            (0, Take, "run 0 0 1"),
            (1, Abort(0), OK),
            (0, Do(0), OK),
            (0, Take, "plan 0"),
            (0, Do(1), OK),
            (1, Take, "undo 0 0 1"),
            (1, Do(2), OK),
            (0, Take, "settled"),
        ],
        numbers: &[(0, &[0, 1, 3, 4, 5]), (1, &[2, 6, 7])],
        ends: &[(&[0, 1], "books 8 0")],
    },
];

/// The contents of a claim: its saga, and for a job its step and attempt.
fn kind_of<R: process::Abort + Alloc<A = Global>>(rt: &R, claim: &Claim<'_>) -> String {
    let alloc = rt.alloc();
    let text = match claim {
        Claim::Run(job) => {
            format!(in alloc; "run {} {} {}", job.saga(), job.step(), job.attempt())
        }
        Claim::Undo(job) => {
            format!(in alloc; "undo {} {} {}", job.saga(), job.step(), job.attempt())
        }
        Claim::Plan(job, _) => format!(in alloc; "plan {}", job.saga()),
        Claim::Idle => String::from_str(alloc, "idle"),
        Claim::Settled => String::from_str(alloc, "settled"),
    };
    text.expect(rt, "a text")
}

/// Ends a claim, with success or failure, and returns why it was refused. After a refusal the claim is unchanged.
fn end<'d, R: process::Abort + Wait + Alloc<A = Global>>(
    rt: &R,
    desk: &Desk<'d>,
    seat: &mut Seat,
    claimed: &mut Claim<'d>,
    well: bool,
) -> String {
    let outcome = if well { Outcome::Done } else { Outcome::Failed };
    match std::mem::replace(claimed, Claim::Idle) {
        Claim::Run(job) | Claim::Undo(job) => match desk.report(rt, seat, job, outcome) {
            Ok(()) => text(rt, OK),
            Err(refused) => {
                *claimed = Claim::Run(refused.job);
                told(rt, &refused.why)
            }
        },
        Claim::Plan(job, case) if well => {
            let answer = plan(rt.alloc(), &case).expect(rt, "a plan");
            let verdict = verify(case, answer).expect(rt, "a right plan");
            match desk.adopt(rt, seat, job, verdict) {
                Ok(()) => text(rt, OK),
                Err(refused) => {
                    let AdoptionRefused { job, verdict, why } = refused;
                    let (case, _) = verdict.into_parts();
                    *claimed = Claim::Plan(job, case);
                    told(rt, &why)
                }
            }
        }
        Claim::Plan(job, case) => match desk.give_back(rt, seat, job) {
            Ok(()) => text(rt, OK),
            Err(refused) => {
                *claimed = Claim::Plan(refused.job, case);
                told(rt, &refused.why)
            }
        },
        other => kind_of(rt, &other),
    }
}

/// Makes a call, and appends its claim to the earlier claims.
fn make<'d, R: process::Abort + Wait + Alloc<A = Global>>(
    rt: &R,
    desk: &Desk<'d>,
    seat: &mut Seat,
    claims: &mut Vec<Claim<'d>>,
    call: &Call,
) -> String {
    match call {
        Call::Open(shard, definition) => {
            assert!(rt; *shard < desk.shards());
            told(rt, &desk.open_saga(rt, seat, *shard, *definition))
        }
        Call::Abort(saga) => told(rt, &desk.abort(rt, seat, *saga)),
        Call::Take => {
            let claim = desk.claim(rt, seat).expect(rt, "memory");
            let kind = kind_of(rt, &claim);
            claims.push(claim).expect(rt, "room");
            kind
        }
        Call::Do(place) => {
            let claim = claims.get_mut(*place).expect(rt, "a claim");
            end(rt, desk, seat, claim, true)
        }
        Call::Fail(place) => {
            let claim = claims.get_mut(*place).expect(rt, "a claim");
            end(rt, desk, seat, claim, false)
        }
    }
}

/// Makes the calls, and checks the receipts.
fn speak<'d, R: process::Abort + Wait + Alloc<A = Global>>(
    rt: &R,
    desk: &Desk<'d>,
    other: &Desk<'d>,
    seats: &mut Vec<Option<Seat>>,
    talk: &Talk,
) {
    let mut claims = Vec::new(rt.alloc());
    for (number, (who, call, expected)) in talk.calls.iter().enumerate() {
        let seat = seats
            .get_mut(*who)
            .expect(rt, "a seat")
            .as_mut()
            .expect(rt, "a seat");
        let place = if *who < 2 { desk } else { other };
        let reply = make(rt, place, seat, &mut claims, call);
        assert_eq!(rt; reply.as_str(), *expected, "call {number}: {}", talk.name);
    }
    for (who, numbers) in talk.numbers {
        let seat = seats
            .get(*who)
            .expect(rt, "a seat")
            .as_ref()
            .expect(rt, "a seat");
        let receipts = seat.receipts().iter().map(|receipt| &receipt.place);
        assert!(rt;
            receipts.eq(numbers.iter()),
            "receipts of {who}: {}",
            talk.name
        );
    }
}

/// The result of the end of a desk. If the desk is not ended, it is returned with the seats.
fn ended<'d, R: process::Abort + Alloc<A = Global>>(
    rt: &R,
    desk: Desk<'d>,
    seats: Vec<Seat>,
) -> (String, Option<Desk<'d>>, Vec<Seat>) {
    match desk.finish(seats) {
        Ok(books) => (lengths(rt, books.as_slice()), None, Vec::new(rt.alloc())),
        Err(FinishRefused::Stranger(desk, seats)) => (text(rt, "stranger"), Some(desk), seats),
        Err(FinishRefused::Missing(desk, seats)) => (text(rt, "missing"), Some(desk), seats),
        Err(FinishRefused::OutOfMemory(desk, seats)) => (text(rt, "memory"), Some(desk), seats),
        Err(FinishRefused::Torn(_, seats)) => (text(rt, "torn"), None, seats),
    }
}

/// Ends a desk with the chosen seats, until it has ended.
fn end_all<R: process::Abort + Alloc<A = Global>>(
    rt: &R,
    desk: Desk<'_>,
    seats: &mut Vec<Option<Seat>>,
    talk: &Talk,
) {
    let mut left = Some(desk);
    for (picked, expected) in talk.ends {
        let mut chosen = Vec::new(rt.alloc());
        for place in *picked {
            let seat = seats.get_mut(*place).expect(rt, "a seat").take();
            chosen.push(seat.expect(rt, "a seat")).expect(rt, "room");
        }
        let (how, back, chosen) = ended(rt, left.expect(rt, "a desk"), chosen);
        assert_eq!(rt; how.as_str(), *expected, "{}", talk.name);
        for (place, seat) in picked.iter().zip(chosen) {
            *seats.get_mut(*place).expect(rt, "a seat") = Some(seat);
        }
        left = back;
    }
}

fn check<R: process::Abort + Wait + Alloc<A = Global>>(rt: &R, talk: &Talk) {
    let alloc = rt.alloc();
    let shelf = shelf_of(rt, talk.steps, talk.tries, Needs::Nothing);
    let shards = within(talk.shards);
    let (desk, own) = Desk::open(alloc, &shelf, 2, shards).expect(rt, "a desk");
    let (other, others) = Desk::open(alloc, &shelf, 2, shards).expect(rt, "a desk");
    let mut seats = Vec::new(alloc);
    for seat in own.into_iter().chain(others) {
        seats.push(Some(seat)).expect(rt, "room");
    }
    speak(rt, &desk, &other, &mut seats, talk);
    end_all(rt, desk, &mut seats, talk);
}

const OTHER_ATTEMPT: &Talk = &Talk {
    name: "a job of another desk, of an attempt that was missed here",
    steps: 1,
    tries: 2,
    shards: 1,
    calls: &[
        (0, Open(0, 0), "Ok(0)"),
        (2, Open(0, 0), "Ok(0)"),
        (2, Take, "run 0 0 1"),
        (0, Take, "run 0 0 1"),
        (0, Fail(1), OK),
        (0, Take, "run 0 0 2"),
        (0, Do(0), "OtherAttempt"),
        (0, Do(2), OK),
        (0, Take, "settled"),
    ],
    numbers: &[(0, &[0, 1, 2, 3, 4]), (2, &[0, 1])],
    ends: &[(&[0, 1], "books 5 0")],
};

/// Sagas with one step on the last of several shards. Each is opened, run and settled before the next one.
struct Turns {
    shards: u32,
    tries: u64,
    /// Another seat has started the action of the first saga, and does not end it.
    is_one_held: bool,
}

const TURNS: &[Turns] = &[
    Turns {
        shards: 16,
        tries: 1,
        is_one_held: false,
    },
    Turns {
        shards: 3,
        tries: 1,
        is_one_held: false,
    },
    // more than 4,096 events while an action is in progress
    Turns {
        shards: 3,
        tries: 9,
        is_one_held: true,
    },
];

/// Runs 300 sagas in turn. Each action fails except in its last attempt.
fn take_turns<R: process::Abort + Wait + Alloc<A = Global>>(rt: &R, turns: &Turns) {
    let shelf = shelf_of(rt, 1, turns.tries, Needs::Nothing);
    let shards = within(turns.shards);
    let (desk, mut seats) = Desk::open(rt.alloc(), &shelf, 2, shards).expect(rt, "a desk");
    let mut other = seats.pop().expect(rt, "a seat");
    let mut seat = seats.pop().expect(rt, "a seat");
    let last = shards - 1;
    let mut rest = "settled";
    for turn in 0..300u32 {
        let saga = desk.open_saga(rt, &mut seat, last, 0).expect(rt, "a saga");
        assert_eq!(rt; saga, last + turn * shards);
        if turn == 0 && turns.is_one_held {
            let held = desk.claim(rt, &mut other).expect(rt, "memory");
            assert!(rt; matches!(&held, Claim::Run(_)));
            rest = "idle";
            continue;
        }
        for missed in 0..turns.tries {
            let attempt = missed + 1;
            let mut claim = desk.claim(rt, &mut seat).expect(rt, "memory");
            let expected = format!(in rt.alloc(); "run {saga} 0 {attempt}").expect(rt, "a text");
            assert_eq!(rt; kind_of(rt, &claim).as_str(), expected.as_str());
            let well = attempt == turns.tries;
            assert_eq!(rt; end(rt, &desk, &mut seat, &mut claim, well).as_str(), OK);
        }
        let claim = desk.claim(rt, &mut seat).expect(rt, "memory");
        assert_eq!(rt; kind_of(rt, &claim).as_str(), rest);
    }
}

fn check_other_attempt<R: process::Abort + Wait + Alloc<A = Global>>(rt: &R) {
    check(rt, OTHER_ATTEMPT);
}

#[test]
fn talks(rt: HostRuntime) -> Result<(), test::Fail> {
    for talk in TALKS {
        check(&rt, talk);
    }
    check_other_attempt(&rt);
    for turns in TURNS {
        take_turns(&rt, turns);
    }
    Ok(())
}
