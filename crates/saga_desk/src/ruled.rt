//! Shards with their policy and sign, as a lock protects them.
ghost use Rattle.std.specs.Prelude.{◌≡◌, ◌<◌, ◌≤◌, ◌-◌, ◌%◌, [], IfOk, IfErr, OnOk, OnErr, length};
ghost use Rattle.saga_history.specs.declared.events.Event.TheVariants as event;
ghost use Rattle.saga_core.specs.Refusals.{OfSaga, OpenRefused, SagaRefused};
ghost use Rattle.saga_history.specs.Changes.{aborts};
ghost use Rattle.saga_desk.specs.Effects.{Ends, Records, Serves};
ghost use Rattle.saga_desk.specs.Refusals.{AdoptionIsRefused, GivingBackIsRefused, HasClaimed, ReportIsRefused};
ghost use Rattle.saga_desk.specs.Told.{HoldsTold};

use crate::jobs::{Claim, Job, PlanJob};
use crate::policies::Policy;
use crate::refusals::{AdoptionRefused, GiveBackRefused, ReportRefused};
use crate::shards::{Seat, Shard};
use crate::signs::{Shown, Sign, shown_after, shown_by};
use saga_check::Verdict;
use saga_core::{Book, OpenRefusal, SagaRefusal};
use saga_def::Definition;
use saga_history::Outcome;
use std::alloc::{AllocError, Global};
use std::marker::{Model, PhantomData};

/// A shard that has only events that the policy permits, and the state that its sign shows.
///
/// Its methods are those of [`Shard`], as far as a desk documents them. Each method that changes the shard also takes
/// its sign. When it returns, the sign is correct for the shard: that is an invariant of the lock. A call for a saga is
/// made on the shard that has this number.
#[derive(Drop)]
pub(crate) struct Ruled<'d, P: Policy> {
    shard: Shard<'d>,
    shown: Shown,
    of: PhantomData<P>,
}

impl<'d, P: Policy> Model for Ruled<'d, P> {
    ghost use Rattle.saga_core.specs.Book.{Book};
    ghost use Rattle.saga_desk.specs.Signs.{Shows};
    ghost use Rattle.saga_desk.specs.Told.{HoldsTold};

    ghost Value = { Book };

    ghost view = { λ r. r.shard };

    ghost invariant = { λ r. HoldsTold P.may P.may_abort r.shard × Shows r.shown r.shard };
}

impl<'d, P: Policy> Ruled<'d, P> {
    /// A shard without sagas and with a new sign.
    pub(crate) fn new(
        alloc: Global,
        shelf: &'d [Definition],
        first: u32,
        stride: u32,
    ) -> Ruled<'d, P>
        requires begins { first < stride }
        requires near { stride ≤ 16 }
        ensures { result
            ≡ record { shelf = shelf.entry.now; first = first; stride = stride; history = [] } }
    {
        Ruled {
            shard: Shard::new(alloc, shelf, first, stride),
            shown: Shown::Over,
            of: PhantomData,
        }
    }

    pub(crate) fn open_saga(
        &mut self,
        sign: &Sign,
        seat: &mut Seat,
        definition: u32,
    ) -> Result<u32, OpenRefusal>
        ensures known { OnOk result (definition < length self.old.shelf) }
        ensures ok { IfOk result
            (λ saga. Records self.old self.new seat.old seat.new
            (event.Open saga definition) seat.old.claims) }
        ensures err { OnErr result (seat.new ≡ seat.old) }
        ensures why { IfErr result
            (λ why. OpenRefused self.old definition why) }
    {
        let saga = self.shard.open_saga(seat, definition)?;
        sign.show(&mut self.shown, Shown::Open);
        Ok(saga)
    }

    pub(crate) fn serve(&mut self, sign: &Sign, seat: &mut Seat) -> Result<Claim<'d>, AllocError>
        ensures ok { IfOk result (λ claim. Serves self.old self.new seat.old seat.new claim) }
        ensures err { OnErr result (seat.new ≡ seat.old) }
    {
        let claim = self.shard.serve(seat)?;
        sign.show(&mut self.shown, shown_by(&claim));
        Ok(claim)
    }

    pub(crate) fn report(
        &mut self,
        sign: &Sign,
        seat: &mut Seat,
        job: Job<'d>,
        outcome: Outcome,
    ) -> Result<(), ReportRefused<'d>>
        requires may { P.may job outcome }
        requires here { job.saga % self.old.stride ≡ self.old.first }
        ensures own { OnOk result (HasClaimed job.entry.seat seat.old) }
        ensures ok { OnOk result (Ends self.old self.new seat.old seat.new job.entry outcome) }
        ensures err { IfErr result (λ refused. seat.new ≡ seat.old) }
        ensures back { IfErr result (λ refused. refused.job ≡ job.entry) }
        ensures why { IfErr result
            (λ refused. ReportIsRefused self.old seat.old job.entry refused.why) }
    {
        self.shard.report(seat, job, outcome)?;
        let shown = shown_after(&self.shard, self.shown);
        sign.show(&mut self.shown, shown);
        Ok(())
    }

    pub(crate) fn adopt(
        &mut self,
        sign: &Sign,
        seat: &mut Seat,
        job: PlanJob,
        verdict: Verdict<'d>,
    ) -> Result<(), AdoptionRefused<'d>>
        requires { job.saga % self.old.stride ≡ self.old.first }
        ensures own { OnOk result (HasClaimed job.seat seat.old) }
        ensures ok { OnOk result
            (Records self.old self.new seat.old seat.new (event.Adopt job.saga verdict.entry.answer)
            (seat.old.claims - 1)) }
        ensures err { IfErr result (λ refused. seat.new ≡ seat.old) }
        ensures back { IfErr result
            (λ refused. (refused.job ≡ job) × (refused.verdict ≡ verdict.entry)) }
        ensures why { IfErr result
            (λ refused. AdoptionIsRefused self.old seat.old job verdict.entry.case refused.why) }
    {
        self.shard.adopt(seat, job, verdict)?;
        let shown = shown_after(&self.shard, self.shown);
        sign.show(&mut self.shown, shown);
        Ok(())
    }

    pub(crate) fn give_back(
        &mut self,
        sign: &Sign,
        seat: &mut Seat,
        job: PlanJob,
    ) -> Result<(), GiveBackRefused>
        requires { job.saga % self.old.stride ≡ self.old.first }
        ensures own { OnOk result (HasClaimed job.seat seat.old) }
        ensures ok { OnOk result
            (Records self.old self.new seat.old seat.new (event.DropPlan job.saga)
            (seat.old.claims - 1)) }
        ensures err { IfErr result (λ refused. seat.new ≡ seat.old) }
        ensures back { IfErr result (λ refused. refused.job ≡ job) }
        ensures why { IfErr result
            (λ refused. GivingBackIsRefused self.old seat.old job refused.why) }
    {
        self.shard.give_back(seat, job)?;
        let shown = shown_after(&self.shard, self.shown);
        sign.show(&mut self.shown, shown);
        Ok(())
    }

    pub(crate) fn abort(
        &mut self,
        sign: &Sign,
        seat: &mut Seat,
        saga: u32,
    ) -> Result<(), SagaRefusal>
        requires may { P.may_abort saga }
        requires here { saga % self.old.stride ≡ self.old.first }
        ensures ok { OnOk result
            (Records self.old self.new seat.old seat.new (event.Abort saga) seat.old.claims) }
        ensures err { OnErr result (seat.new ≡ seat.old) }
        ensures why { IfErr result
            (λ why. SagaRefused self.old saga aborts why) }
    {
        self.shard.abort(seat, saga)?;
        let shown = shown_after(&self.shard, self.shown);
        sign.show(&mut self.shown, shown);
        Ok(())
    }

    pub(crate) fn first(&self) -> u32
        ensures { result ≡ self.now.first }
    {
        self.shard.first()
    }

    pub(crate) fn stride(&self) -> u32
        ensures { result ≡ self.now.stride }
    {
        self.shard.stride()
    }

    pub(crate) fn definitions(&self) -> usize
        ensures { result ≡ length self.now.shelf }
    {
        self.shard.definitions()
    }

    /// The book of the shard.
    pub(crate) fn into_book(self) -> Book<'d>
        ensures value { result ≡ self.entry }
        ensures told { HoldsTold P.may P.may_abort result }
    {
        let Ruled { shard, .. } = self;
        shard.into_book()
    }
}
