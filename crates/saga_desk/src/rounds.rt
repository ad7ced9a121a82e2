//! Rounds over the shards of a desk.
ghost use Rattle.std.specs.Prelude.{◌≡◌, ◌<◌, IfSome, false, true};
ghost use Rattle.saga_desk.specs.Effects.{Claims};
ghost use Rattle.saga_desk.specs.Rounds.{IsFoundBy, after};

use crate::jobs::Claim;
use crate::shards::Seat;

/// The state of a shard that gave no task.
#[derive(Clone, Copy)]
pub(crate) enum Found {
    /// The shard may have a task, and other seats use it.
    Busy,
    Idle,
    Over,
}

/// The result of visiting shards one after the other in a circle: the number of shards, the next shard, the number of
/// visited shards, whether one was busy, and whether all were over.
#[derive(Clone, Copy)]
pub(crate) struct Round {
    shards: usize,
    next: usize,
    looked: usize,
    is_busy: bool,
    is_over: bool,
}

impl Round {
    /// A round that starts at this shard.
    pub(crate) fn new(shards: usize, first: usize) -> Round
        ensures { result ≡ record
            { shards = shards; next = first; looked = 0; is_busy = false; is_over = true } }
    {
        Round {
            shards,
            next: first,
            looked: 0,
            is_busy: false,
            is_over: true,
        }
    }

    /// The number of the next shard.
    pub(crate) fn next(&self) -> usize
        ensures { result ≡ self.now.next }
    {
        self.next
    }

    /// Records the state of the next shard.
    pub(crate) fn note(&mut self, found: Found)
        requires next { self.old.next < self.old.shards }
        requires left { self.old.looked < self.old.shards }
        ensures { self.new ≡ after self.old found }
    {
        self.next = (self.next + 1) % self.shards;
        self.looked += 1;
        match found {
            Found::Busy => self.is_busy = true,
            Found::Idle => self.is_over = false,
            Found::Over => {}
        }
    }

    /// The result of a round that found no task for the seat. It is `None` if a shard was busy.
    pub(crate) fn end<'d>(&self, seat: &Seat) -> Option<Claim<'d>>
        requires { self.now.looked ≡ self.now.shards }
        ensures found { IsFoundBy self.now.shards self.now result }
        ensures claims { IfSome result (λ claim. Claims seat.now seat.now claim) }
    {
        let _ = seat;
        match (self.is_busy, self.is_over) {
            (true, _) => None,
            (false, true) => Some(Claim::Settled),
            (false, false) => Some(Claim::Idle),
        }
    }
}
