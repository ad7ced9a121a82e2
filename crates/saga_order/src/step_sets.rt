//! Sets of steps as bits.
ghost use Rattle.std.specs.Prelude.{◌≡◌, ◌<◌, ◌≤◌, ◌*◌, ℕ, [], length, IfOk};
ghost use Rattle.saga_order.specs.Bits.{holds, IsEmptyFor, IsWith, IsJoined};

use std::alloc::{AllocError, Global};
use std::marker::Model;

/// A set of steps: bit `s % 64` of the word at `s / 64` says whether the set contains the step `s`.
#[derive(Debug, Drop)]
pub struct StepSet {
    words: Vec<u64>,
}

impl Model for StepSet {
    ghost use Rattle.std.specs.Prelude.{ℕ, List};

    ghost Value = { List ℕ };

    ghost view = { λ s. s.words.items };
}

impl StepSet {
    /// The empty set with capacity 0. Takes no memory.
    pub fn new(alloc: Global) -> StepSet
        ensures { result ≡ [] }
    {
        StepSet {
            words: Vec::new(alloc),
        }
    }

    /// The empty set with capacity for the steps below `count`.
    pub fn with_room(alloc: Global, count: usize) -> Result<StepSet, AllocError>
        ensures { IfOk result (λ set. IsEmptyFor count set) }
    {
        Ok(StepSet {
            words: vec![in alloc; 0; count.div_ceil(64)]?,
        })
    }

    /// Whether the set contains a step.
    pub fn contains(&self, step: u16) -> bool
        ensures { result ≡ holds self.now step }
    {
        let place = step as usize / 64;
        place < self.words.len() && (self.words[place] >> (step % 64)) & 1 == 1
    }

    /// Adds a step to the set.
    pub fn insert(&mut self, step: u16)
        requires { step < 64 * length self.old }
        ensures { IsWith self.old step self.new }
    {
        self.words[step as usize / 64] |= 1 << (step % 64);
    }

    /// Adds all steps of another set, which has at most the same capacity.
    pub fn add_all(&mut self, more: &StepSet)
        requires { length more.now ≤ length self.old }
        ensures { IsJoined self.old more.now self.new }
    {
        for (place, word) in more.words.iter().enumerate() {
            self.words[place] |= *word;
        }
    }
}
