//! How a call is tried: with one memory allocation refused, or with every allocation refused.
use std::alloc::{Alloc, Global};

/// A trial in progress. It prints a word on standard error where the calls under test start and end, for the library
/// that refuses memory: `each` if one allocation is refused, `none` if every allocation is refused, and `ample` if none
/// is refused any more.
#[derive(Drop)]
pub struct Trial<'a> {
    rt: &'a HostRuntime,
    /// Whether allocations are refused one by one. Otherwise only calls that take no memory are tried.
    pub refuses: bool,
    /// Whether a call returned a refusal of memory.
    pub refused: bool,
}

impl<'a> Trial<'a> {
    pub fn new(rt: &'a HostRuntime) -> Trial<'a> {
        Trial {
            rt,
            refuses: true,
            refused: false,
        }
    }

    pub fn alloc(&self) -> Global {
        self.rt.alloc()
    }

    /// Prints a word for the refusal of allocations from here on. If printing fails, no allocation is refused.
    fn tell(&self, word: &str) {
        let _ = eprintln!(self.rt; "{word}");
    }

    /// From here on one allocation may be refused.
    pub fn each(&self) {
        if self.refuses {
            self.tell("each");
        }
    }

    /// From here on every allocation is refused.
    pub fn none(&self) {
        self.tell("none");
    }

    /// From here on no allocation is refused.
    pub fn ample(&self) {
        self.tell("ample");
    }
}
