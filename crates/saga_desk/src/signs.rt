//! The sign of a shard: its state for readers without its lock.
ghost use Rattle.std.specs.Prelude.{◌≡◌};
ghost use Rattle.saga_desk.specs.Signs.{Shows, shown_by};

use crate::jobs::Claim;
use crate::shards::Shard;
use std::sync::atomic::{AtomicU64, Ordering};

/// The state of a shard, as its sign shows it.
#[derive(Clone, Copy, PartialEq, Eq)]
pub(crate) enum Shown {
    /// The shard may have a task.
    Open,
    /// The shard has no task, and not every saga of it is ended or stuck.
    Idle,
    /// Each saga of the shard is ended or stuck.
    Over,
}

/// The sign of a shard. It is written only under the shard's lock. A copy of it is stored beside the shard.
#[derive(Drop)]
pub(crate) struct Sign {
    state: AtomicU64,
}

const OPEN: u64 = 0;

const IDLE: u64 = 1;

const OVER: u64 = 2;

impl Sign {
    /// The sign of a shard without sagas.
    pub(crate) fn new() -> Sign {
        Sign {
            state: AtomicU64::new(OVER),
        }
    }

    /// The state that the sign shows.
    pub(crate) fn read(&self) -> Shown {
        match self.state.load(Ordering::SeqCst) {
            IDLE => Shown::Idle,
            OVER => Shown::Over,
            _ => Shown::Open,
        }
    }

    /// Replaces the state that the sign shows.
    pub(crate) fn show(&self, shown: &mut Shown, now: Shown)
        ensures { shown.new ≡ now }
    {
        if *shown != now {
            let state = match now {
                Shown::Open => OPEN,
                Shown::Idle => IDLE,
                Shown::Over => OVER,
            };
            self.state.store(state, Ordering::SeqCst);
            *shown = now;
        }
    }
}

/// The state to show after a claim at a shard.
pub(crate) fn shown_by(claim: &Claim<'_>) -> Shown
    ensures { result ≡ shown_by claim.now }
{
    match claim {
        Claim::Settled => Shown::Over,
        Claim::Idle => Shown::Idle,
        _ => Shown::Open,
    }
}

/// The state to show after an event at a shard that showed `before`. `Open` may stay until a claim finds no task.
pub(crate) fn shown_after(shard: &Shard<'_>, before: Shown) -> Shown
    ensures { Shows result shard.now }
{
    match before {
        Shown::Open => Shown::Open,
        _ if shard.has_task() => Shown::Open,
        _ if shard.is_settled() => Shown::Over,
        _ => Shown::Idle,
    }
}
