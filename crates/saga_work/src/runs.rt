//! Complete runs.
ghost use Rattle.std.specs.Prelude.{◌≡◌, ◌<◌, ◌≤◌, ◌↔◌, ◌∷◌, [], All, IfErr, IfOk, IsTrue, None, ℕ, map};
ghost use Rattle.saga_core.specs.Tasks.{AllAreOver};
ghost use Rattle.saga_desk.specs.Finish.{AreOfShards, HeadlineHolds, MergesAreLegal};
ghost use Rattle.saga_desk.specs.Told.{HoldsTold};
ghost use Rattle.saga_work.specs.Answered.{IsWork, MayBeTold};
ghost use Rattle.saga_work.specs.Asked.{AreAnswered, AreNumbered, AreOpenedAsAsked, AreSeated, EachGained};
ghost use Rattle.saga_work.specs.Faults.{IsRunFault, fault_of_finish, first_stop, stop_told};

use crate::actors::Actor;
use crate::bells::Bell;
use crate::faults::{FinishFault, RunFault, Stop};
use crate::opening::opened;
use crate::workers::work_all;
use saga_core::Book;
use saga_def::Definition;
use saga_desk::{Desk, FinishRefused, Policy, Seat};
use std::alloc::{AllocError, Global};
use std::marker::Brand;
use std::sync::Wait;
use std::thread::Threads;

/// The result of a run: the book of each shard, and the reason why the run stopped before each saga was ended or stuck,
/// if it did.
#[derive(Drop)]
pub struct Run<'d> {
    pub books: Vec<Book<'d>>,
    pub stopped: Option<Stop>,
}

/// The fault of a desk that was not finished.
fn finish_fault<P: Policy>(refused: FinishRefused<'_, P>) -> RunFault
    ensures { result ≡ fault_of_finish refused.entry }
{
    match refused {
        FinishRefused::Stranger(_desk, _seats) => RunFault::Finish(FinishFault::Stranger),
        FinishRefused::Missing(_desk, _seats) => RunFault::Finish(FinishFault::Missing),
        FinishRefused::OutOfMemory(_desk, _seats) => RunFault::OutOfMemory,
        FinishRefused::Torn(_books, _seats) => RunFault::Finish(FinishFault::Torn),
    }
}

/// Whether each saga of the books is ended or stuck.
fn are_over(books: &[Book<'_>]) -> bool
    ensures { IsTrue result ↔ All AllAreOver books.now }
{
    for i in 0..books.len() {
        if !books[i].settled() {
            return false;
        }
    }
    true
}

/// Establishes that the books number their sagas in order. Reading their histories has no other effect.
fn are_numbered(books: &[Book<'_>])
    ensures { AreNumbered books.now }
{
    for i in 0..books.len() {
        let _history = books[i].history();
    }
}

/// The first of two optional stops.
fn first_of(first: Option<Stop>, second: Option<Stop>) -> Option<Stop>
    ensures { result ≡ first_stop (first ∷ (second ∷ [])) }
{
    match first {
        None => second,
        first => first,
    }
}

/// The seats of workers that have ended, and the stop of the first one that stopped.
fn parted(
    alloc: Global,
    done: Vec<(Seat, Option<Stop>)>,
) -> Result<(Vec<Seat>, Option<Stop>), AllocError>
    ensures seats { IfOk result (λ r. r.0.items ≡ map (λ p. p.0) done.items) }
    ensures stop { IfOk result (λ r. r.1 ≡ first_stop (map (λ p. p.1) done.items)) }
{
    let mut back = Vec::with_capacity(alloc, done.len())?;
    let mut stopped = None;
    for (seat, stop) in done {
        back.push_reserved(seat);
        stopped = first_of(stopped, stop);
    }
    Ok((back, stopped))
}

/// Runs a worker at each seat. Returns the seats, and the stop of the first worker that stopped.
fn worked<R: Threads + Wait + Sync, A: Actor + Sync, P: Policy + Send + Sync>(
    rt: &R,
    alloc: Global,
    desk: &Desk<'_, P>,
    seats: Vec<Seat>,
    actor: &A,
) -> Result<(Vec<Seat>, Option<Stop>), AllocError>
    requires { MayBeTold (A.may actor.now) (A.may_abort actor.now) P.may P.may_abort }
    ensures gained { IfOk result
        (λ r. EachGained IsWork seats.items r.0.items) }
    ensures numbers { IfOk result
        (λ r. (n : ℕ) → AreSeated n seats.items → AreSeated n r.0.items) }
{
    let bell = Bell::new();
    let done = work_all(rt, alloc, desk, &bell, seats, actor)?;
    let (back, stopped) = parted(alloc, done)?;
    Ok((back, stopped))
}

/// The stop of a run, from the stop of its workers if they have one.
fn told(stop: Option<Stop>, is_over: bool) -> Option<Stop>
    ensures { result ≡ stop_told stop is_over }
{
    match stop {
        None if !is_over => Some(Stop::Refused),
        stop => stop,
    }
}

/// The same as [`run_all`], with a desk of this policy.
fn run_with_policy<'d, P: Policy + Send + Sync, R: Threads + Wait + Sync, A: Actor + Sync>(
    rt: &R,
    alloc: Global,
    shelf: &'d [Definition],
    asks: &[u32],
    workers: u32,
    shards: u32,
    actor: &A,
) -> Result<Run<'d>, RunFault>
    requires policy { MayBeTold (A.may actor.now) (A.may_abort actor.now) P.may P.may_abort }
    requires workers { (0 < workers) × (workers ≤ 16) }
    requires shards { (0 < shards) × (shards ≤ 16) }
    ensures shards { IfOk result (λ run. AreOfShards shelf.entry.now shards run.books.items) }
    ensures opened { IfOk result (λ run. AreOpenedAsAsked shards asks.now run.books.items) }
    ensures ended { IfOk result (λ run. run.stopped ≡ None → All AllAreOver run.books.items) }
    ensures told { IfOk result (λ run. All (HoldsTold P.may P.may_abort) run.books.items) }
    ensures legal { IfOk result (λ run. MergesAreLegal shelf.entry.now run.books.items) }
    ensures headline { IfOk result (λ run. HeadlineHolds shelf.entry.now run.books.items) }
    ensures why { IfErr result (λ fault. IsRunFault shards shelf.entry.now asks.now fault) }
{
    let (desk, seats) = opened::<P, R>(rt, alloc, shelf, asks, workers, shards)?;
    let Ok((back, stop)) = worked(rt, alloc, &desk, seats, actor) else {
        return Err(RunFault::OutOfMemory);
    };
    let books = match desk.finish(back) {
        Ok(books) => books,
        Err(refused) => return Err(finish_fault(refused)),
    };
    are_numbered(books.as_slice());
    let is_over = are_over(books.as_slice());
    let stopped = told(stop, is_over);
    Ok(Run { books, stopped })
}

/// Opens the requested definitions, given by their indices on the shelf, and lets workers run all of these sagas to
/// their end.
///
/// The j-th requested definition becomes saga j, on shard j modulo the number of shards, before any worker starts. If
/// the system provides no thread for a seat, another thread runs its worker. `stopped` is the stop of the seat with the
/// lowest number that stopped. It is `Refused` if no seat stopped and a saga is neither ended nor stuck. Faults: a
/// definition cannot be opened, and then no step was run; or the desk cannot be finished or memory is lacking, and then
/// actions may have been run.
pub fn run_all<'d, R: Threads + Wait + Sync, A: Actor + Sync>(
    rt: &R,
    alloc: Global,
    shelf: &'d [Definition],
    asks: &[u32],
    workers: u32,
    shards: u32,
    actor: &A,
) -> Result<Run<'d>, RunFault>
    requires workers { (0 < workers) × (workers ≤ 16) }
    requires shards { (0 < shards) × (shards ≤ 16) }
    ensures shards { IfOk result (λ run. AreOfShards shelf.entry.now shards run.books.items) }
    ensures opened { IfOk result (λ run. AreOpenedAsAsked shards asks.now run.books.items) }
    ensures ended { IfOk result (λ run. run.stopped ≡ None → All AllAreOver run.books.items) }
    ensures answered { IfOk result
        (λ run. AreAnswered (A.may actor.now) (A.may_abort actor.now) run.books.items) }
    ensures legal { IfOk result (λ run. MergesAreLegal shelf.entry.now run.books.items) }
    ensures headline { IfOk result (λ run. HeadlineHolds shelf.entry.now run.books.items) }
    ensures why { IfErr result (λ fault. IsRunFault shards shelf.entry.now asks.now fault) }
{
    run_with_policy::<Brand, R, A>(rt, alloc, shelf, asks, workers, shards, actor)
}
