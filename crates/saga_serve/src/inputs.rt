//! The buffer of standard input: the bytes that have arrived and are not yet processed.
ghost use Rattle.std.specs.Prelude.{◌≡◌, ◌↔◌, ◌<◌, ◌≤◌, ◌⊎◌, ◌-◌, ◌∷◌, ◌++◌, [], IfErr, IfOk, IsTrue, OnErr, drop, false, length, take, true};
ghost use Rattle.saga_serve.specs.Inputs.{Arrives};
ghost use Rattle.saga_serve.specs.Drives.{HaltsAs, IsLate};

use crate::endings::{Ending, Stream};
use crate::limits::AT_ONCE;
use crate::outside::FileFault;
use crate::stops::Halt;
use crate::streams::Requests;
use std::alloc::{AllocError, Global};
use std::marker::Model;

/// The bytes that have arrived and are not yet processed, and whether standard input has ended within a line. In that
/// case a line feed was added to the bytes.
#[derive(Drop)]
pub struct Input {
    buffer: Vec<u8>,
    from: usize,
    until: usize,
    ended: bool,
}

impl Model for Input {
    ghost use Rattle.std.specs.Prelude.{◌≡◌, ◌-◌, ◌<◌, ◌≤◌, drop, length, take};
    ghost use Rattle.saga_serve.specs.Inputs.{Input};

    ghost Value = { Input };

    ghost view = { λ i. record {
      left = take (i.until - i.from) (drop i.from i.buffer.items);
      ended = i.ended;
    } };

    ghost invariant = { λ i. (i.from ≤ i.until) × (i.until ≤ length i.buffer.items) × (0 < length i.buffer.items) };
}

impl Input {
    /// Makes an empty buffer. No later call allocates memory.
    pub fn new(alloc: Global) -> Result<Input, AllocError>
        ensures { IfOk result (λ input. input ≡ record { left = []; ended = false }) }
    {
        let buffer = vec![in alloc; 0u8; AT_ONCE]?;
        Ok(Input {
            buffer,
            from: 0,
            until: 0,
            ended: false,
        })
    }

    /// Returns whether some bytes are not yet processed.
    pub fn has_more(&self) -> bool
        ensures { IsTrue result ↔ (0 < length self.now.left) }
    {
        self.unheard().len() > 0
    }

    /// Returns the bytes that are not yet processed.
    pub fn unheard(&self) -> &[u8]
        ensures { result.now ≡ self.now.left }
    {
        &self.buffer[self.from..self.until]
    }

    /// Marks all bytes except the last `left` as processed.
    pub fn leave(&mut self, left: usize)
        requires { left ≤ length self.old.left }
        ensures left { self.new.left ≡ drop (length self.old.left - left) self.old.left }
        ensures ended { self.new.ended ≡ self.old.ended }
    {
        self.from = self.until - left;
    }

    /// Adds a line feed at the end of standard input.
    fn close(&mut self)
        ensures { self.new ≡ record { left = 10 ∷ []; ended = true } }
    {
        self.buffer.as_mut_slice()[0] = b'\n';
        self.from = 0;
        self.until = 1;
        self.ended = true;
    }

    /// Waits until more bytes have arrived, and returns false at the end of standard input. If standard input ends
    /// within a line, the call adds the line feed.
    pub fn wait<A: Requests>(
        &mut self,
        arrivals: &mut A,
        waiting: &str,
        begun: bool,
    ) -> Result<bool, Halt>
        requires heard { self.old.left ≡ [] }
        requires told { (waiting.now ≡ []) ⊎ (A.arrived arrivals.old ≡ []) }
        ensures more { IfOk result (λ more. Arrives more begun self.old (A.arrived arrivals.old) self.new (A.arrived arrivals.new)) }
        // true comes with a byte, so a conversation that hears it has something to do
        ensures some { IfOk result (λ more. more ≡ true → 0 < length self.new.left) }
        ensures none { OnErr result (A.arrived arrivals.new ≡ A.arrived arrivals.old) }
        ensures stop { IfErr result (HaltsAs IsLate) }
    {
        if self.ended {
            return Ok(false);
        }
        let count = wait_for_more(arrivals, self.buffer.as_mut_slice(), waiting)?;
        self.from = 0;
        self.until = count;
        if count > 0 {
            return Ok(true);
        }
        if begun {
            self.close();
        }
        Ok(begun)
    }
}

/// Waits until bytes have arrived and takes them. Returns their number, which is 0 at the end of standard input.
fn wait_for_more<A: Requests>(
    arrivals: &mut A,
    buffer: &mut [u8],
    waiting: &str,
) -> Result<usize, Halt>
    requires { (waiting.now ≡ []) ⊎ (A.arrived arrivals.old ≡ []) }
    ensures count { IfOk result (λ count. count ≤ length buffer.new) }
    ensures more { IfOk result (λ count. A.arrived arrivals.new ≡ A.arrived arrivals.old ++ take count buffer.new) }
    ensures none { OnErr result (A.arrived arrivals.new ≡ A.arrived arrivals.old) }
    ensures stop { IfErr result (HaltsAs IsLate) }
{
    match arrivals.take(buffer, waiting) {
        Ok(count) => Ok(count),
        Err(FileFault::OutOfMemory) => Err(Halt::OutOfMemory),
        Err(FileFault::Unreadable) => Err(Halt::Early(Ending::Unreadable(Stream::Standard))),
    }
}
