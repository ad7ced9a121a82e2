//! Splits standard input into three parts.
ghost use Rattle.std.specs.Prelude.{◌≡◌, ◌↔◌, ◌<◌, ◌≤◌, ◌+◌, IsTrue, IfSome, IfNone, length, MatchOption};
ghost use Rattle.saga_tool.specs.Parts.{IsSeparator, IsFirstSeparator, HasNoSeparator, AreParts, HasNoParts};

const SEPARATOR: &[u8] = b"---";

/// The texts of a definition, a case and an answer.
#[derive(Clone, Copy)]
pub struct Parts<'a> {
    pub definition: &'a [u8],
    pub case: &'a [u8],
    pub answer: &'a [u8],
}

/// Returns whether a line that is exactly `---` starts at an index.
fn is_separator(input: &[u8], at: usize) -> bool
    requires { at < length input.now }
    ensures { IsTrue result ↔ IsSeparator input.now at }
{
    let begins = at == 0 || input[at - 1] == b'\n';
    if !begins || input.len() - at < 3 {
        return false;
    }
    let is_marked = input[at] == b'-' && input[at + 1] == b'-' && input[at + 2] == b'-';
    is_marked && (input.len() == at + 3 || input[at + 3] == b'\n')
}

/// The first line that is exactly `---`, from an index on.
fn next_separator(input: &[u8], from: usize) -> Option<usize>
    ensures none { IfNone result (HasNoSeparator input.now from) }
    ensures some { IfSome result (λ at. IsFirstSeparator input.now from at) }
{
    for at in from..input.len() {
        if is_separator(input, at) {
            return Some(at);
        }
    }
    None
}

/// The three parts of an input, which the first two lines that are exactly `---` separate. A part keeps the line feed
/// before a separator. The next part starts after the separator's own line feed.
pub fn parts_of<'a>(input: &'a [u8]) -> Option<Parts<'a>>
    ensures none { IfNone result (HasNoParts input.entry.now) }
    ensures some { IfSome result
        (λ parts. AreParts input.entry.now parts.definition.now parts.case.now parts.answer.now) }
{
    let first = next_separator(input, 0)?;
    let second = next_separator(input, first + 4)?;
    let end = if second + 4 < input.len() {
        second + 4
    } else {
        input.len()
    };
    Some(Parts {
        definition: &input[..first],
        case: &input[first + 4..second],
        answer: &input[end..],
    })
}
