//! Iteration over the lines of a text.
ghost use Rattle.std.specs.Prelude.{◌≡◌, ◌∷◌, [], ◌<◌, length, MatchOption, IfSome};
ghost use Rattle.saga_bytes.specs.Lines.{lines_of};

use memchr::memchr;

/// The first line of a text and the rest after its line feed. Returns `None` if the text is empty. Takes no memory, and
/// time linear in the line.
pub fn split_line(text: &[u8]) -> Option<(&[u8], &[u8])>
    ensures lines { MatchOption result (lines_of text.entry.now ≡ [])
        (λ split. lines_of text.entry.now ≡ split.0.now ∷ lines_of split.1.now) }
    ensures shorter { IfSome result (λ split. length split.1.now < length text.entry.now) }
{
    if text.is_empty() {
        return None;
    }
    match memchr(b'\n', text) {
        Some(end) => Some((&text[..end], &text[end + 1..])),
        None => Some((text, &text[text.len()..])),
    }
}
