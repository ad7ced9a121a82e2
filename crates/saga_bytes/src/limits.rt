//! Reads up to one byte past a limit: enough to detect that a text is too long.
ghost use Rattle.std.specs.Prelude.{◌<◌, ◌≤◌, ◌^◌, ◌+◌, ◌≡◌, IfOk, IfSome, length, take};
ghost use Rattle.std.specs.Io.{ReadsAtMost};
ghost use Rattle.std.specs.Io.KnownBytes.{Consumes, ReadConsumes};
ghost use Rattle.saga_bytes.specs.More.{ReadsMore};

use std::alloc::Global;
use std::io::{self, ErrorKind, Read};

/// The maximum number of bytes of one read.
const AT_ONCE: usize = 8_192;

/// One read, which is repeated if a signal interrupts it. Returns the bytes that are available, up to the length of the
/// buffer.
pub fn read_once<R: Read>(reader: &mut R, buffer: &mut [u8]) -> io::Result<usize>
    ensures bound { ReadsAtMost result buffer.new }
    ensures bytes { ReadConsumes (R.remaining reader.old)
        (R.remaining reader.new) result buffer.new }
{
    for _ in 0..u64::MAX {
        match reader.read(buffer) {
            Err(error) if error.kind() == ErrorKind::Interrupted => {}
            read => return read,
        }
    }
    Err(io::Error::from(ErrorKind::Interrupted))
}

/// Reads once, at most `most` bytes, and appends them. Returns false at the end of the input.
fn read_more<R: Read>(reader: &mut R, bytes: &mut Vec<u8>, most: usize) -> io::Result<bool>
    requires { 0 < most }
    ensures { IfOk result (ReadsMore (R.remaining reader.old) (R.remaining reader.new)
        bytes.old.items bytes.new.items most) }
{
    let mut buffer = [0; AT_ONCE];
    let size = most.min(AT_ONCE);
    let count = read_once(reader, &mut buffer[..size])?;
    bytes.extend_from_slice(&buffer[..count])?;
    Ok(count > 0)
}

/// Reads up to one byte past a limit. The reader's position is then directly after the bytes that were read. A reader
/// that never ends gives `limit + 1` bytes. A read that a signal interrupts is repeated. Any other error ends the
/// reading, and the bytes that were read are lost.
pub fn read_up_to<R: Read>(alloc: Global, reader: &mut R, limit: usize) -> io::Result<Vec<u8>>
    requires { limit < 2 ^ 63 }
    ensures bytes { IfOk result (λ bytes. IfSome (R.remaining reader.old)
        (λ held. bytes.items ≡ take (limit + 1) held)) }
    ensures within { IfOk result (λ bytes. length bytes.items ≤ limit + 1) }
    ensures rest { IfOk result (λ bytes. Consumes (R.remaining reader.old) (R.remaining reader.new)
        bytes.items) }
{
    let mut bytes = Vec::new(alloc);
    while bytes.len() <= limit {
        let most = limit + 1 - bytes.len();
        if !read_more(reader, &mut bytes, most)? {
            return Ok(bytes);
        }
    }
    Ok(bytes)
}
