//! Standard input and standard output, as a conversation uses them.
ghost use Rattle.std.specs.Prelude.{◌≡◌, ◌⊎◌, ◌≤◌, ◌++◌, ℕ, List, [], IfOk, OnErr, length, take};

use crate::outside::FileFault;

/// Standard input, as it arrives.
pub trait Requests: Drop {
    /// Everything that has arrived.
    ghost arrived: { Self → List ℕ };

    /// Waits until something has arrived, and takes up to the length of the buffer. Returns the
    /// number of bytes, which is 0 at the end of the input. After the first byte has arrived, a
    /// caller may wait only if no reply waits to be written.
    fn take(&mut self, buffer: &mut [u8], waiting: &str) -> Result<usize, FileFault>
        requires { (waiting.now ≡ []) ⊎ (arrived self.old ≡ []) }
        ensures count { IfOk result (λ count. count ≤ length buffer.new) }
        ensures more { IfOk result (λ count. arrived self.new ≡ arrived self.old ++ take count buffer.new) }
        ensures none { OnErr result (arrived self.new ≡ arrived self.old) };
}

/// Standard output of a drive that writes no log.
pub trait Replies: Drop {
    /// Everything that was written. If the last write failed, its text may be there only in part.
    ghost told: { Self → List ℕ };

    /// Writes a text. Returns false if it cannot be written completely.
    fn print(&mut self, text: &str) -> bool
        ensures { told self.new ≡ told self.old ++ text.now };
}
