//! Workers: each claims and executes tasks until all sagas are over.
ghost use Rattle.std.specs.Prelude.{◌≡◌, ◌-◌, IfOk, OnErr, length, true};
ghost use Rattle.saga_desk.specs.Effects.{Claims};
ghost use Rattle.saga_work.specs.Added.{Adds, EachAdds, HasClaims, stop_of};
ghost use Rattle.saga_work.specs.Answered.{EndsPlan, IsAbortOf, IsWork, MayBeTold};

use crate::actors::Actor;
use crate::bells::{Bell, Rope};
use crate::faults::Stop;
use saga_case::Case;
use saga_check::verify;
use saga_core::{AdoptRefusal, SagaRefusal};
use saga_desk::{AdoptionRefused, Claim, Desk, EndRefusal, Job, PlanJob, Policy, Seat};
use saga_history::Outcome;
use saga_plan::plan;
use std::alloc::{AllocError, Global};
use std::sync::Wait;
use std::thread::{self, Threads};

/// Whether a worker continues after its last claim, or ends, possibly with a stop.
#[derive(Clone, Copy)]
enum Course {
    Goes,
    Ends(Option<Stop>),
}

/// Aborts a saga. Ignores the refusals that the saga is over or was aborted before.
fn abort<R: Wait, P: Policy>(rt: &R, desk: &Desk<'_, P>, seat: &mut Seat, saga: u32) -> Option<Stop>
    requires { P.may_abort saga }
    ensures adds { Adds (IsAbortOf saga) seat.old seat.new }
    ensures claims { seat.new.claims ≡ seat.old.claims }
{
    match desk.abort(rt, seat, saga) {
        Ok(()) => None,
        Err(SagaRefusal::NotNow) => None,
        Err(SagaRefusal::OutOfMemory) => Some(Stop::OutOfMemory),
        Err(SagaRefusal::NoSuchSaga) => Some(Stop::Refused),
    }
}

/// The outcome that the actor returns for a job.
fn outcome_of<A: Actor>(actor: &A, job: &Job<'_>) -> Outcome
    ensures { A.may actor.now job.now result }
{
    if job.is_undo() {
        actor.undo(job)
    } else {
        actor.run(job)
    }
}

/// Whether the saga is to be aborted after a job with this outcome: the job succeeded, and the actor requests an abort.
fn aborts_after<A: Actor>(actor: &A, job: &Job<'_>, outcome: Outcome) -> bool
    ensures done { result ≡ true → outcome ≡ Outcome.Done }
    ensures may { result ≡ true → A.may_abort actor.now job.now }
    ensures must { outcome ≡ Outcome.Done → A.must_abort actor.now job.now → result ≡ true }
{
    match outcome {
        Outcome::Done => actor.asks_abort(job),
        Outcome::Void | Outcome::Failed => false,
    }
}

/// Lets the actor run a job, and reports the outcome.
fn perform<'d, R: Wait, A: Actor, P: Policy>(
    rt: &R,
    desk: &Desk<'d, P>,
    seat: &mut Seat,
    actor: &A,
    job: Job<'d>,
) -> Option<Stop>
    requires { MayBeTold (A.may actor.now) (A.may_abort actor.now) P.may P.may_abort }
    ensures adds { Adds IsWork seat.old seat.new }
    ensures ended { HasClaims result seat.new (seat.old.claims - 1) }
{
    let outcome = outcome_of(actor, &job);
    let aborts = aborts_after(actor, &job, outcome);
    let saga = job.saga();
    match desk.report(rt, seat, job, outcome) {
        Err(_) => Some(Stop::Refused),
        Ok(()) => {
            if aborts {
                abort(rt, desk, seat, saga)
            } else {
                None
            }
        }
    }
}

/// Ends a planning without an answer. Returns the stop of the worker, which is `stop` unless the desk refuses.
fn give_back<R: Wait, P: Policy>(
    rt: &R,
    desk: &Desk<'_, P>,
    seat: &mut Seat,
    job: PlanJob,
    stop: Option<Stop>,
) -> Option<Stop>
    ensures adds { Adds (EndsPlan job.saga) seat.old seat.new }
    ensures ended { HasClaims result seat.new (seat.old.claims - 1) }
{
    match desk.give_back(rt, seat, job) {
        Ok(()) => stop,
        Err(_) => Some(Stop::Refused),
    }
}

/// Plans how a saga ends, and has the answer adopted. A plan that came too late is given back.
fn settle<'d, R: Wait, P: Policy>(
    rt: &R,
    alloc: Global,
    desk: &Desk<'d, P>,
    seat: &mut Seat,
    job: PlanJob,
    case: Case<'d>,
) -> Option<Stop>
    ensures adds { Adds (EndsPlan job.saga) seat.old seat.new }
    ensures ended { HasClaims result seat.new (seat.old.claims - 1) }
{
    let Ok(answer) = plan(alloc, &case) else {
        return give_back(rt, desk, seat, job, Some(Stop::OutOfMemory));
    };
    let Ok(verdict) = verify(case, answer) else {
        unreachable!()
    };
    match desk.adopt(rt, seat, job, verdict) {
        Ok(()) => None,
        Err(refused) => {
            let AdoptionRefused { job, why, .. } = refused;
            match why {
                EndRefusal::Book(AdoptRefusal::Stale) => give_back(rt, desk, seat, job, None),
                _ => Some(Stop::Refused),
            }
        }
    }
}

/// Continues, or ends with a stop.
fn after(stop: Option<Stop>) -> Course
    ensures { stop_of result ≡ stop }
{
    match stop {
        None => Course::Goes,
        stop => Course::Ends(stop),
    }
}

/// Claims for a seat. If there is no task, waits until that may have changed.
fn claim<'d, R: Wait, P: Policy>(
    rt: &R,
    desk: &Desk<'d, P>,
    rope: &Rope<'_>,
    seat: &mut Seat,
) -> Result<Claim<'d>, AllocError>
    requires { rope.now.rung_for ≡ length seat.old.receipts }
    ensures ok { IfOk result (λ claim. Claims seat.old seat.new claim) }
    ensures err { OnErr result (seat.new ≡ seat.old) }
{
    match desk.claim(rt, seat)? {
        Claim::Idle => rope.wait(rt, desk, seat),
        claim => Ok(claim),
    }
}

/// Claims once, and executes the claim. Notifies the waiting workers afterwards.
fn take_turn<R: Wait, A: Actor, P: Policy>(
    rt: &R,
    alloc: Global,
    desk: &Desk<'_, P>,
    rope: &mut Rope<'_>,
    seat: &mut Seat,
    actor: &A,
) -> Course
    requires told { MayBeTold (A.may actor.now) (A.may_abort actor.now) P.may P.may_abort }
    requires rung { rope.old.rung_for ≡ length seat.old.receipts }
    ensures rung { rope.new.rung_for ≡ length seat.new.receipts }
    ensures adds { Adds IsWork seat.old seat.new }
    ensures ended { HasClaims (stop_of result) seat.new seat.old.claims }
{
    match claim(rt, desk, rope, seat) {
        Err(_) => Course::Ends(Some(Stop::OutOfMemory)),
        Ok(Claim::Settled) => Course::Ends(None),
        Ok(Claim::Idle) => Course::Goes,
        Ok(Claim::Run(job)) => {
            let stop = perform(rt, desk, seat, actor, job);
            rope.ring(rt, desk, seat);
            after(stop)
        }
        Ok(Claim::Undo(job)) => {
            let stop = perform(rt, desk, seat, actor, job);
            rope.ring(rt, desk, seat);
            after(stop)
        }
        Ok(Claim::Plan(job, case)) => {
            let stop = settle(rt, alloc, desk, seat, job, case);
            rope.ring(rt, desk, seat);
            after(stop)
        }
    }
}

/// Runs a worker at a seat: it claims and executes tasks until each saga of the desk is ended or stuck. Returns the
/// seat, and the reason why it stopped earlier, if it did.
///
/// The desk's policy must permit every report that the actor may return. It must also permit an abort of a saga if the
/// actor may request one, after a job that it may answer with done. So after the desk is finished, its books have only
/// such events. The worker opens no saga. It ends every claim: if a plan came too late or memory for it is lacking, it
/// gives the plan back, and in the second case stops. A claim may stay outstanding only if the desk refuses a call.
pub fn work<R: Wait, A: Actor, P: Policy>(
    rt: &R,
    alloc: Global,
    desk: &Desk<'_, P>,
    bell: &Bell,
    seat: Seat,
    actor: &A,
) -> (Seat, Option<Stop>)
    requires { MayBeTold (A.may actor.now) (A.may_abort actor.now) P.may P.may_abort }
    ensures adds { Adds IsWork seat result.0 }
    ensures ended { HasClaims result.1 result.0 seat.claims }
{
    let mut seat = seat;
    let mut rope = Rope::new(bell, &seat);
    for _ in rt.forever() {
        if let Course::Ends(stop) = take_turn(rt, alloc, desk, &mut rope, &mut seat, actor) {
            return (seat, stop);
        }
    }
    unreachable!()
}

/// Runs a worker at each seat, on its own thread if the system provides one. Returns the seats in order.
pub fn work_all<R: Threads + Wait + Sync, A: Actor + Sync, P: Policy + Send + Sync>(
    rt: &R,
    alloc: Global,
    desk: &Desk<'_, P>,
    bell: &Bell,
    seats: Vec<Seat>,
    actor: &A,
) -> Result<Vec<(Seat, Option<Stop>)>, AllocError>
    requires { MayBeTold (A.may actor.now) (A.may_abort actor.now) P.may P.may_abort }
    ensures len { IfOk result (λ done. length done.items ≡ length seats.items) }
    ensures each { IfOk result
        (λ done. EachAdds
        IsWork seats.items done.items) }
{
    thread::map_vec(
        rt,
        seats,
        &|seat: Seat| -> (Seat, Option<Stop>)
            requires { MayBeTold (A.may actor.now) (A.may_abort actor.now) P.may P.may_abort }
            ensures { Adds IsWork seat result.0 }
        { work(rt, alloc, desk, bell, seat, actor) },
    )
}
