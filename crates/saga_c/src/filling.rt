//! The output of a call, in the buffer of the caller.
ghost use Rattle.std.specs.Prelude.{◌≡◌, ◌++◌, ◌≤◌, drop, length};
ghost use Rattle.saga_c.specs.Given.{GivesBy, Shows, text_of};
ghost use Rattle.saga_c.specs.Sessions.{whole_of};
ghost use Rattle.saga_drive.specs.Replies.{lines_of};

use saga_drive::Reply;
use saga_texts::Output;
use std::alloc::AllocError;

/// The status of a call that succeeded.
pub const OK: u32 = 0;

/// The status of a call that the state of the coordinator does not allow.
pub const REJECTED: u32 = 1;

/// The status of a call whose allocation failed.
const NO_MEMORY: u32 = 4;

/// The status of a call whose buffer is too small.
pub const BUFFER_TOO_SMALL: u32 = 5;

/// Writes a text to the start of a buffer.
fn put(text: &[u8], buffer: &mut [u8])
    requires { length text.now ≤ length buffer.old }
    ensures { buffer.new ≡ text.now ++ drop (length text.now) buffer.old }
{
    buffer[..text.len()].copy_from_slice(text);
}

/// Returns the text of an output: its standard output, or its message.
fn text_of(output: &Output) -> &str
    ensures { result.now ≡ text_of output.now }
{
    if output.status == 3 {
        output.err.as_str()
    } else {
        output.out.as_str()
    }
}

/// Writes an output to the caller's buffer if it fits, and sets `used` to its length. Returns the status.
pub fn give(output: Result<Output, AllocError>, buffer: &mut [u8], used: &mut usize) -> u32
    ensures { GivesBy output buffer.old buffer.new used.new result }
{
    *used = 0;
    let Ok(output) = output else {
        return NO_MEMORY;
    };
    let text = text_of(&output).as_bytes();
    *used = text.len();
    if text.len() > buffer.len() {
        return BUFFER_TOO_SMALL;
    }
    put(text, buffer);
    u32::from(output.status)
}

/// The results of a call in addition to its text: the status, the number of bytes of the log from which the session
/// continues, the number of bytes of log lines in the text, and the length of the text.
#[derive(Clone, Copy)]
pub struct Told {
    pub status: u32,
    pub log: usize,
    pub lines: usize,
    pub used: usize,
}

/// Returns the results of a call that did nothing.
pub fn rejected() -> Told
    ensures { result ≡ record { status = 1; log = 0; lines = 0; used = 0 } }
{
    Told {
        status: REJECTED,
        log: 0,
        lines: 0,
        used: 0,
    }
}

/// Writes two texts to the start of a buffer, one after the other.
fn put_both(first: &[u8], second: &[u8], buffer: &mut [u8])
    requires { length (first.now ++ second.now) ≤ length buffer.old }
    ensures { buffer.new
        ≡ (first.now ++ second.now) ++ drop (length (first.now ++ second.now)) buffer.old }
{
    put(first, buffer);
    put(second, &mut buffer[first.len()..]);
}

/// Writes the log lines of a reply and then the reply to a buffer, and returns the results. If they do not fit, the
/// buffer is unchanged.
pub fn give_reply(reply: &Reply, buffer: &mut [u8]) -> Told
    ensures used { result.used ≡ length (whole_of reply.now) }
    ensures lines { result.lines ≡ length (lines_of reply.now) }
    ensures given { Shows (whole_of reply.now) buffer.old buffer.new result.status }
{
    let lines = reply.lines().as_bytes();
    let text = reply.text().as_bytes();
    let used = lines.len() + text.len();
    let fits = used <= buffer.len();
    if fits {
        put_both(lines, text, buffer);
    }
    Told {
        status: if fits { OK } else { BUFFER_TOO_SMALL },
        log: 0,
        lines: lines.len(),
        used,
    }
}
