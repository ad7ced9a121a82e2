//! The fast path for requests in canonical form: keys in ascending order, no white space, numbers in decimal. It reads
//! such a request token by token, without a JSON tree. The general reader handles every other form.
ghost use Rattle.std.specs.Prelude.{◌≡◌, ◌↔◌, ◌++◌, ◌<◌, ◌^◌, Ok, IfSome, IsTrue, decimal};
ghost use Rattle.saga_drive.specs.Plain.{kind_text, outcome_text, told_text};
ghost use Rattle.saga_drive.specs.Requests.{request_of_text};

use crate::attempts::Attempt;
use crate::fields::MAX_MOST;
use crate::openings::Wanted;
use crate::requests::Request;
use itoa::Buffer;
use saga_history::{Kind, Outcome};

/// Returns a guess of the number in the leading digits of a text. The function has no contract; its callers check the
/// guess.
fn guess(line: &[u8]) -> u64 {
    let mut value = 0u64;
    for byte in line {
        if !byte.is_ascii_digit() {
            return value;
        }
        value = value
            .wrapping_mul(10)
            .wrapping_add(byte.wrapping_sub(b'0') as u64);
    }
    value
}

/// Returns the rest of the line after a given prefix.
fn after<'a>(line: &'a [u8], piece: &str) -> Option<&'a [u8]>
    ensures { IfSome result (λ rest. line.entry.now ≡ piece.now ++ rest.now) }
{
    line.strip_prefix(piece.as_bytes())
}

fn is_same(line: &[u8], text: &str) -> bool
    ensures { IsTrue result ↔ (line.now ≡ text.now) }
{
    line == text.as_bytes()
}

/// Returns a 32-bit number at the start of a line, and the rest of the line.
fn u32_first(line: &[u8]) -> Option<(u32, &[u8])>
    ensures text { IfSome result (λ cut. line.entry.now ≡ decimal cut.0 ++ cut.1.now) }
    ensures small { IfSome result (λ cut. cut.0 < 2 ^ 32) }
{
    let number = u32::try_from(guess(line)).ok()?;
    let mut buffer = Buffer::new();
    let rest = after(line, buffer.format(number))?;
    Some((number, rest))
}

/// Returns a 16-bit number at the start of a line, and the rest of the line.
fn u16_first(line: &[u8]) -> Option<(u16, &[u8])>
    ensures text { IfSome result (λ cut. line.entry.now ≡ decimal cut.0 ++ cut.1.now) }
    ensures small { IfSome result (λ cut. cut.0 < 2 ^ 16) }
{
    let number = u16::try_from(guess(line)).ok()?;
    let mut buffer = Buffer::new();
    let rest = after(line, buffer.format(number))?;
    Some((number, rest))
}

/// Returns a 32-bit number after a given prefix, and the rest of the line.
fn u32_after<'a>(line: &'a [u8], piece: &str) -> Option<(u32, &'a [u8])>
    ensures text { IfSome result (λ cut. line.entry.now ≡ piece.now ++ (decimal cut.0 ++ cut.1.now)) }
    ensures small { IfSome result (λ cut. cut.0 < 2 ^ 32) }
{
    u32_first(after(line, piece)?)
}

/// Returns a 16-bit number after a given prefix, and the rest of the line.
fn u16_after<'a>(line: &'a [u8], piece: &str) -> Option<(u16, &'a [u8])>
    ensures text { IfSome result (λ cut. line.entry.now ≡ piece.now ++ (decimal cut.0 ++ cut.1.now)) }
    ensures small { IfSome result (λ cut. cut.0 < 2 ^ 16) }
{
    u16_first(after(line, piece)?)
}

/// Returns the outcome at the start of a report, and the rest of the line. The line starts after the first character of
/// the object.
fn outcome_first(line: &[u8]) -> Option<(Outcome, &[u8])>
    ensures { IfSome result (λ cut. line.entry.now ≡ outcome_text cut.0 ++ cut.1.now) }
{
    if let Some(rest) = after(line, "\"do\":\"report\",\"outcome\":\"ok\"") {
        return Some((Outcome::Done, rest));
    }
    if let Some(rest) = after(line, "\"do\":\"report\",\"outcome\":\"void\"") {
        return Some((Outcome::Void, rest));
    }
    let rest = after(line, "\"do\":\"report\",\"outcome\":\"fail\"")?;
    Some((Outcome::Failed, rest))
}

/// Returns the outcome, the saga and the step of a report, and the rest of the line.
fn told_first(line: &[u8]) -> Option<(Outcome, u32, u16, &[u8])>
    ensures text { IfSome result (λ told. line.entry.now ≡ told_text told.0 told.1 told.2 told.3.now) }
    ensures saga { IfSome result (λ told. told.1 < 2 ^ 32) }
    ensures step { IfSome result (λ told. told.2 < 2 ^ 16) }
{
    let (outcome, rest) = outcome_first(line)?;
    let (saga, rest) = u32_after(rest, ",\"saga\":")?;
    let (step, rest) = u16_after(rest, ",\"step\":")?;
    Some((outcome, saga, step, rest))
}

/// Returns the kind of task at the end of a line.
fn last_kind(line: &[u8]) -> Option<Kind>
    ensures { IfSome result (λ kind. line.now ≡ kind_text kind) }
{
    if is_same(line, ",\"task\":\"run\"}") {
        Some(Kind::Run)
    } else if is_same(line, ",\"task\":\"undo\"}") {
        Some(Kind::Undo)
    } else {
        None
    }
}

/// Reads a report that names its attempt.
fn report_of_attempt(line: &[u8]) -> Option<Request>
    ensures { IfSome result (λ r. request_of_text line.now ≡ Ok r) }
{
    let (number, rest) = u16_after(line, "{\"attempt\":")?;
    let (outcome, saga, step, rest) = told_first(after(rest, ",")?)?;
    let task = last_kind(rest)?;
    let attempt = Some(Attempt { task, number });
    Some(Request::Report {
        saga,
        step,
        attempt,
        outcome,
    })
}

/// Reads a report that does not name an attempt.
fn report(line: &[u8]) -> Option<Request>
    ensures { IfSome result (λ r. request_of_text line.now ≡ Ok r) }
{
    let (outcome, saga, step, rest) = told_first(after(line, "{")?)?;
    if !is_same(rest, "}") {
        return None;
    }
    Some(Request::Report {
        saga,
        step,
        attempt: None,
        outcome,
    })
}

/// Reads an `open` that has an index and a number.
fn open(line: &[u8]) -> Option<Request>
    ensures { IfSome result (λ r. request_of_text line.now ≡ Ok r) }
{
    let (index, rest) = u32_after(line, "{\"def\":")?;
    let (saga, rest) = u32_after(rest, ",\"do\":\"open\",\"saga\":")?;
    if !is_same(rest, "}") {
        return None;
    }
    let wanted = Wanted::Index(index);
    Some(Request::Open {
        wanted,
        saga: Some(saga),
    })
}

/// Reads a request for the next task, or for several.
fn next(line: &[u8]) -> Option<Request>
    ensures { IfSome result (λ r. request_of_text line.now ≡ Ok r) }
{
    let rest = after(line, "{\"do\":\"next\"")?;
    if is_same(rest, "}") {
        return Some(Request::Next);
    }
    let (most, rest) = u16_after(rest, ",\"most\":")?;
    if most == 0 || most > MAX_MOST || !is_same(rest, "}") {
        return None;
    }
    Some(Request::NextMany(most))
}

/// Reads a request in canonical form, in time linear in the line and without allocation. `None` means only that the
/// line is not in such a form.
pub fn plain_request(line: &[u8]) -> Option<Request>
    ensures { IfSome result (λ r. request_of_text line.now ≡ Ok r) }
{
    if let Some(request) = report_of_attempt(line) {
        return Some(request);
    }
    if let Some(request) = next(line) {
        return Some(request);
    }
    if let Some(request) = open(line) {
        return Some(request);
    }
    report(line)
}
