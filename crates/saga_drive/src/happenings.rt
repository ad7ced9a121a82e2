//! Replies for a single event. The reply is built before the event, except for the phase of its saga after the event.
ghost use Rattle.std.specs.Prelude.{◌≡◌, ◌+◌, ◌≤◌, ◌++◌, IfOk, string_bytes, string_capacity, string_len};

use crate::phases::{phase_in, word_of};
use crate::replies::{Reply, push_reserved};
use saga_core::Book;
use saga_history::Event;
use saga_log::put_event;
use std::alloc::{AllocError, Global};

/// `END` is the text that follows the word for the phase. `ROOM` is the maximum number of bytes of the word and `END`.
const END: &str = "\"}\n";

const ROOM: usize = 11;

/// The reply for an event, without the word for the phase of its saga and the text that follows it. The buffer has
/// reserved capacity for both.
#[derive(Drop)]
pub struct Happening {
    pub text: String,
    pub lines: String,
    ghost room: { string_len text + 11 ≤ string_capacity text },
}

impl Happening {
    ghost use Rattle.saga_history.specs.declared.tasks.Phase.{Phase};
    ghost use Rattle.saga_core.specs.Refusals.{IsUnknown};
    ghost use Rattle.saga_core.specs.Tasks.{StandsAt};
    ghost use Rattle.saga_log.specs.Back.{IsReadBack};
    ghost use Rattle.saga_log.specs.Events.{IsPaired};
    ghost use Rattle.saga_log.specs.Logs.{event_line};
    ghost use Rattle.saga_drive.specs.Happenings.{IsHeld};
    ghost use Rattle.saga_drive.specs.Replies.{event_front, lines_of};

    /// Builds the reply before the event is added.
    pub fn new(alloc: Global, event: &Event) -> Result<Happening, AllocError>
        requires { IsPaired event.now }
        ensures text { IfOk result (λ held. string_bytes held.text ≡ event_front event.now) }
        ensures lines { IfOk result (λ held. string_bytes held.lines ≡ event_line event.now) }
        ensures back { IfOk result (λ _. IsReadBack event.now) }
    {
        let mut lines = String::new(alloc);
        put_event(alloc, &mut lines, event)?;
        let mut text = ["{\"event\":", lines.as_str(), ",\"phase\":\""].concat(alloc)?;
        lines.push('\n')?;
        text.reserve(ROOM)?;
        Ok(Happening { text, lines })
    }

    /// Completes the reply after the event was added, with the phase of the saga. Allocates no memory.
    pub fn told(self, book: &Book<'_>, saga: u32) -> Reply
        requires { IsUnknown book.now saga → ⊥ }
        ensures text { IsHeld book.now saga (string_bytes self.text) result }
        ensures lines { lines_of result ≡ string_bytes self.lines }
    {
        let Happening {
            mut text,
            lines,
            ..
        } = self;
        push_reserved(&mut text, word_of(phase_in(book, saga)));
        push_reserved(&mut text, END);
        Reply::Told { text, lines }
    }
}
