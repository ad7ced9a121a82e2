//! The file of the definitions of a log, which is stored next to the log. Each definition follows a line with its
//! length, so the file contains the definition byte for byte.
ghost use Rattle.std.specs.Prelude.{◌≡◌, ◌<◌, ◌^◌, ◌++◌, ◌∷◌, ◌↔◌, ℕ, List, IfNone, IfOk, IfSome, IsTrue, OnOk, Some, decimal, length, map};
ghost use Rattle.std.specs.String.{string_bytes};
ghost use Rattle.saga_texts.specs.Beside.{HoldsDefinitions, HoldsNone, IsFirstOther, definitions_file, framed, head_line};

use crate::audits::numbered_line;
use memchr::memchr;
use std::alloc::{AllocError, AllocFailed, Global};

const START: &[u8] = b"definition of ";

/// Returns the line before a definition of `count` bytes.
fn head_line(alloc: Global, count: usize) -> Result<String, AllocError>
    ensures { IfOk result (λ line. string_bytes line ≡ head_line count) }
{
    numbered_line(alloc, "definition of ", count, " ", "bytes")
}

/// Appends a definition with the line before it.
fn push_framed(alloc: Global, file: &mut Vec<u8>, text: &[u8]) -> Result<(), AllocError>
    ensures { OnOk result (file.new.items ≡ file.old.items ++ framed text.now) }
{
    let head = head_line(alloc, text.len())?;
    file.extend_from_slice(head.as_bytes())?;
    file.extend_from_slice(text)?;
    file.extend_from_slice(b"\n")?;
    Ok(())
}

/// Returns the file of definitions.
pub fn definitions_file(alloc: Global, texts: &[&[u8]]) -> Result<Vec<u8>, AllocError>
    ensures { IfOk result (λ file. file.items ≡ definitions_file (map (λ t. t.now) texts.now)) }
{
    let mut file = Vec::new(alloc);
    for text in texts {
        push_framed(alloc, &mut file, text)?;
    }
    Ok(file)
}

/// Returns whether two texts are equal.
fn is_same(one: &[u8], other: &[u8]) -> bool
    ensures { IsTrue result ↔ (one.now ≡ other.now) }
{
    one == other
}

/// Returns the number before the first space.
fn number_at(text: &[u8]) -> Option<usize>
    ensures { (n : ℕ) (more : List ℕ) → n < 2 ^ 64 → text.now ≡ decimal n ++ 32 ∷ more → result ≡ Some n }
{
    let Some(end) = memchr(b' ', text) else {
        return None;
    };
    let (digits, _) = text.split_at(end);
    let Ok(digits) = std::str::from_utf8(digits) else {
        return None;
    };
    match digits.parse::<usize>() {
        Ok(number) => Some(number),
        Err(_) => None,
    }
}

/// Returns the length of the first definition of a file, or `None` if the file does not start with one.
fn count_at(file: &[u8]) -> Option<usize>
    ensures { (text more : List ℕ) → file.now ≡ framed text ++ more → result ≡ Some (length text) }
{
    if file.len() < START.len() {
        return None;
    }
    let (_, rest) = file.split_at(START.len());
    number_at(rest)
}

/// Returns the first definition of a file and the rest, or `None` if the file does not start with a definition.
fn first_definition<'a>(
    alloc: Global,
    file: &'a [u8],
) -> Result<Option<(&'a [u8], &'a [u8])>, AllocError>
    ensures begins { IfOk result (λ found. IfSome found
        (λ first. file.entry.now ≡ framed first.0.now ++ first.1.now)) }
    ensures shorter { IfOk result (λ found. IfSome found
        (λ first. length first.1.now < length file.entry.now)) }
    ensures none { IfOk result (λ found. IfNone found
        ((text more : List ℕ) → file.entry.now ≡ framed text ++ more → ⊥)) }
{
    let Some(count) = count_at(file) else {
        return Ok(None);
    };
    let head = head_line(alloc, count)?;
    if file.len() < head.len() {
        return Ok(None);
    }
    let (start, from) = file.split_at(head.len());
    if from.len() <= count || !is_same(start, head.as_bytes()) {
        return Ok(None);
    }
    let (text, rest) = from.split_at(count);
    let (end, more) = rest.split_at(1);
    if !is_same(end, b"\n") {
        return Ok(None);
    }
    Ok(Some((text, more)))
}

/// Returns the definitions of a file, or `None` if it is not a file of definitions.
pub fn definitions_of<'a>(
    alloc: Global,
    file: &'a [u8],
) -> Result<Option<Vec<&'a [u8]>>, AllocError>
    ensures some { IfOk result (λ found. IfSome found
        (λ texts. HoldsDefinitions file.entry.now (map (λ t. t.now) texts.items))) }
    ensures none { IfOk result (λ found. IfNone found (HoldsNone file.entry.now)) }
{
    if file.len() == 0 {
        return Ok(None);
    }
    let mut texts = Vec::new(alloc);
    let mut left = file;
    while !left.is_empty() {
        let Some((text, more)) = first_definition(alloc, left)? else {
            return Ok(None);
        };
        texts.push(text)?;
        left = more;
    }
    Ok(Some(texts))
}

/// Returns the first index at which the given definitions differ from the stored ones, or `None` if they are equal.
pub fn first_other(stored: &[&[u8]], given: &[&[u8]]) -> Option<usize>
    ensures none { IfNone result (map (λ t. t.now) stored.now ≡ map (λ t. t.now) given.now) }
    ensures other { IfSome result
        (IsFirstOther (map (λ t. t.now) stored.now) (map (λ t. t.now) given.now)) }
{
    for place in 0..given.len() {
        if place >= stored.len() || !is_same(stored[place], given[place]) {
            return Some(place);
        }
    }
    if given.len() < stored.len() {
        Some(given.len())
    } else {
        None
    }
}
