//! Trials of the calls of a desk, as scripts of calls. They make the calls of its shards and of their books. The calls
//! that open, claim and abort may be refused memory. The calls that end a claim are made while every memory allocation is refused.
use crate::samples::{self, FAILED, RETRIED, STUCK, Sample};
use crate::trial::Trial;
use anyhow::{Context, Result, bail, ensure};
use saga_case::{Answer, Case};
use saga_check::{Verdict, verify};
use saga_core::{Book, OpenRefusal, SagaRefusal};
use saga_desk::{Claim, Desk, Job, PlanJob, Seat};
use saga_history::Outcome;
use std::alloc::Global;
use std::sync::Wait;

/// A trial: the example, the calls that prepare it, and the calls under test.
///
/// A call is a word, optionally with a number after a colon. `open` opens a saga, and `other` one with a definition
/// that does not exist. `did` and `miss` claim an action or a compensation and end it. `give-back` and `adopt` claim a
/// plan and end it; `adopt` offers the example's answer. `settled` claims nothing, because each saga is settled. The
/// number after these says how often. `abort` aborts a saga, and `again` checks that it cannot be aborted twice.
/// `events` checks the number of events, by the receipts of the seat.
#[derive(Clone, Copy)]
pub struct Script(Sample, &'static str, &'static str);

const OPENS: &str = "open open open open open open open open open events:9";

const ABORTS: &str =
    "abort:0 abort:1 abort:2 abort:3 abort:4 abort:5 abort:6 abort:7 abort:8 again:0 events:18";

/// The trip, whose last step fails, and whose plan is given back once.
const CLAIMS: &str = "did did miss give-back adopt did did settled events:15";

const MISSES: &str = "miss miss miss miss miss miss miss miss miss events:19";

/// The same, with a plan that is given back so often that the later calls come after more than 4,096 events.
const LONG_CLAIMS: &str = "open did did miss give-back:2050 adopt did did settled events:4113";

const REPORTS: &str = "settled other open did did did settled events:7";

const PLANS: &str = "open miss give-back give-back give-back events:9";

const STOPS: &str = "open miss give-back adopt settled events:7";

pub const OPEN: Script = Script(FAILED, "", OPENS);

pub const CLAIM: Script = Script(FAILED, "open", CLAIMS);

pub const MISS: Script = Script(RETRIED, "open", MISSES);

pub const ABORT: Script = Script(FAILED, OPENS, ABORTS);

pub const REPORT: Script = Script(FAILED, "", REPORTS);

pub const ADOPT: Script = Script(STUCK, "", STOPS);

pub const GIVE_BACK: Script = Script(STUCK, "", PLANS);

pub const LONG: Script = Script(FAILED, "", LONG_CLAIMS);

/// Splits a word of a script into a call and its number.
fn call_of(word: &str) -> Result<(&str, u16)> {
    match word.split_once(':') {
        Some((verb, number)) => Ok((verb, number.parse::<u16>().context("a number")?)),
        None => Ok((word, 0)),
    }
}

/// Returns `None` if a call lacked memory. Any other refusal is wrong.
fn unless(is_for_memory: bool) -> Option<bool> {
    if is_for_memory { None } else { Some(false) }
}

/// A desk with one seat.
#[derive(Drop)]
struct At<'d> {
    desk: Desk<'d>,
    seat: Seat,
}

/// How a claim is ended.
#[derive(Clone, Copy)]
enum End {
    Done,
    Missed,
    GivenBack,
    Adopted,
    Settled,
}

/// The end for a word.
fn end_of(verb: &str) -> Result<End> {
    match verb {
        "did" => Ok(End::Done),
        "miss" => Ok(End::Missed),
        "give-back" => Ok(End::GivenBack),
        "adopt" => Ok(End::Adopted),
        "settled" => Ok(End::Settled),
        _ => bail!("no call {verb}"),
    }
}

/// The only seat of a desk.
fn only(seats: Vec<Seat>) -> Result<Seat> {
    for seat in seats {
        return Ok(seat);
    }
    bail!("no seat")
}

/// Opens a saga on the first shard.
fn open_on_first<R: Wait>(
    rt: &R,
    desk: &Desk<'_>,
    seat: &mut Seat,
    definition: u32,
) -> Result<u32, OpenRefusal> {
    if desk.shards() == 0 {
        return Err(OpenRefusal::NoSuchDefinition);
    }
    desk.open_saga(rt, seat, 0, definition)
}

/// Adopts an answer to a case, and returns whether it was adopted.
fn adopt_answer<'d, R: Wait>(
    rt: &R,
    at: &mut At<'d>,
    job: PlanJob,
    case: Case<'d>,
    answer: Answer,
) -> bool {
    match verify(case, answer) {
        Ok(verdict) => at.desk.adopt(rt, &mut at.seat, job, verdict).is_ok(),
        Err(_) => false,
    }
}

/// Ends a plan with the example's answer while every allocation is refused, and returns whether the result is as
/// expected.
fn end_plan<'d, R: Wait>(
    rt: &R,
    trial: &Trial<'_>,
    at: &mut At<'d>,
    job: PlanJob,
    case: Case<'d>,
    how: (Sample, End),
) -> Result<bool> {
    match how {
        (texts, End::Adopted) => {
            let answer = samples::answer(trial.alloc(), texts.answer)?;
            trial.none();
            Ok(adopt_answer(rt, at, job, case, answer))
        }
        (_, End::GivenBack) => {
            trial.none();
            Ok(at.desk.give_back(rt, &mut at.seat, job).is_ok())
        }
        _ => Ok(false),
    }
}

/// Ends a job while every allocation is refused, and returns whether the result is as expected.
fn end_job<'d, R: Wait>(
    rt: &R,
    trial: &Trial<'_>,
    at: &mut At<'d>,
    job: Job<'d>,
    how: End,
) -> bool {
    trial.none();
    let outcome = match how {
        End::Done => Outcome::Done,
        End::Missed => Outcome::Failed,
        _ => return false,
    };
    at.desk.report(rt, &mut at.seat, job, outcome).is_ok()
}

/// Ends a claim, and returns whether the result is as expected.
fn end_claim<'d, R: Wait>(
    rt: &R,
    trial: &Trial<'_>,
    at: &mut At<'d>,
    claim: Claim<'d>,
    how: (Sample, End),
) -> Result<bool> {
    match claim {
        Claim::Run(job) | Claim::Undo(job) => Ok(end_job(rt, trial, at, job, how.1)),
        Claim::Plan(job, case) => end_plan(rt, trial, at, job, case, how),
        Claim::Idle => Ok(false),
        Claim::Settled => Ok(matches!(how.1, End::Settled)),
    }
}

/// Claims, and repeats that if memory was refused.
fn claim_twice<'d, R: Wait>(rt: &R, trial: &mut Trial<'_>, at: &mut At<'d>) -> Result<Claim<'d>> {
    let before = at.seat.receipts().len();
    trial.each();
    let claim = at.desk.claim(rt, &mut at.seat);
    trial.ample();
    if let Ok(claim) = claim {
        return Ok(claim);
    }
    trial.refused = true;
    ensure!(at.seat.receipts().len() == before, "not as before");
    match at.desk.claim(rt, &mut at.seat) {
        Ok(claim) => Ok(claim),
        Err(_) => bail!("refused again, with ample memory"),
    }
}

/// Claims this number of times, and ends each claim. Returns whether each result was as expected.
fn claim_and_end<R: Wait>(
    rt: &R,
    trial: &mut Trial<'_>,
    at: &mut At<'_>,
    how: (Sample, End),
    times: u16,
) -> Result<bool> {
    for _ in 0..times {
        let claim = claim_twice(rt, trial, at)?;
        let right = end_claim(rt, trial, at, claim, how)?;
        trial.ample();
        if !right {
            return Ok(false);
        }
    }
    Ok(true)
}

/// Opens or aborts a saga, and returns whether that succeeded. Returns `None` if memory was lacking.
fn begin<R: Wait>(rt: &R, at: &mut At<'_>, opens: bool, saga: u32) -> Option<bool> {
    if opens {
        match open_on_first(rt, &at.desk, &mut at.seat, 0) {
            Ok(_) => Some(true),
            Err(why) => unless(why == OpenRefusal::OutOfMemory),
        }
    } else {
        match at.desk.abort(rt, &mut at.seat, saga) {
            Ok(()) => Some(true),
            Err(why) => unless(why == SagaRefusal::OutOfMemory),
        }
    }
}

/// Makes such a call, and repeats it if memory was refused: the observed state must then be unchanged.
fn begin_twice<R: Wait>(
    rt: &R,
    trial: &mut Trial<'_>,
    at: &mut At<'_>,
    opens: bool,
    saga: u32,
) -> Result<bool> {
    let before = at.seat.receipts().len();
    trial.each();
    let first = begin(rt, at, opens, saga);
    trial.ample();
    if let Some(right) = first {
        return Ok(right);
    }
    trial.refused = true;
    ensure!(at.seat.receipts().len() == before, "not as before");
    Ok(begin(rt, at, opens, saga) == Some(true))
}

/// Makes a call, and returns whether the result is as expected.
fn make_one<R: Wait>(
    rt: &R,
    trial: &mut Trial<'_>,
    at: &mut At<'_>,
    texts: Sample,
    word: &str,
) -> Result<bool> {
    let (verb, number) = call_of(word)?;
    let saga = u32::from(number);
    match verb {
        "open" => begin_twice(rt, trial, at, true, saga),
        "abort" => begin_twice(rt, trial, at, false, saga),
        "other" => Ok(
            open_on_first(rt, &at.desk, &mut at.seat, 1) == Err(OpenRefusal::NoSuchDefinition),
        ),
        "again" => Ok(at.desk.abort(rt, &mut at.seat, saga) == Err(SagaRefusal::NotNow)),
        "events" => Ok(at.seat.receipts().len() == number as usize),
        _ => claim_and_end(rt, trial, at, (texts, end_of(verb)?), number.max(1)),
    }
}

/// Makes calls one after another.
fn make<R: Wait>(
    rt: &R,
    trial: &mut Trial<'_>,
    at: &mut At<'_>,
    texts: Sample,
    calls: &str,
) -> Result<()> {
    for word in calls.split_whitespace() {
        let right = make_one(rt, trial, at, texts, word)?;
        ensure!(right, "another answer to {word}");
    }
    Ok(())
}

/// The number of events of books.
fn events_in(books: &[Book<'_>]) -> usize {
    let mut events = 0usize;
    for book in books {
        events = events.saturating_add(book.history().len());
    }
    events
}

/// The books that a desk with one seat returns at its end.
fn books_of<'d>(alloc: Global, desk: Desk<'d>, seat: Seat) -> Result<Vec<Book<'d>>> {
    match desk.finish(vec![in alloc; seat]?) {
        Ok(books) => Ok(books),
        Err(_) => bail!("not ended"),
    }
}

/// Makes the calls that prepare the trial, with ample memory, and then the calls under test. Returns the number of
/// receipts after them.
fn make_all<R: Wait>(
    rt: &R,
    trial: &mut Trial<'_>,
    at: &mut At<'_>,
    script: Script,
) -> Result<usize> {
    let Script(texts, before, tried) = script;
    let refuses = trial.refuses;
    trial.refuses = false;
    make(rt, trial, at, texts, before)?;
    trial.refuses = refuses;
    make(rt, trial, at, texts, tried)?;
    Ok(at.seat.receipts().len())
}

/// Makes a trial of a script.
pub fn run<R: Wait>(rt: &R, trial: &mut Trial<'_>, script: Script) -> Result<()> {
    let alloc = trial.alloc();
    let shelf = samples::shelf(alloc, script.0.definition)?;
    let (desk, seats) = Desk::open(alloc, &shelf, 1, 1)?;
    let mut at = At {
        desk,
        seat: only(seats)?,
    };
    let receipts = make_all(rt, trial, &mut at, script)?;
    let At { desk, seat } = at;
    let books = books_of(alloc, desk, seat)?;
    ensure!(events_in(&books) == receipts, "another number of events");
    Ok(())
}
