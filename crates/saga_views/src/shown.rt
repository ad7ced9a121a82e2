//! The state of a saga, as text.
ghost use Rattle.std.specs.Prelude.{◌≡◌, ◌++◌, OnOk, IfOk, MatchOption, Some, length, map, option_map, string_bytes};
ghost use Rattle.saga_core.specs.Book.{changes_in};
ghost use Rattle.saga_core.specs.Refusals.{IsUnknown};
ghost use Rattle.saga_views.specs.Shown as spec;

use crate::words::{listed, listed_words, truth_text};
use itoa::Buffer;
use saga_case::Answer;
use saga_cert::write_answer;
use saga_core::{Book, Saga};
use saga_history::Event;
use std::alloc::{AllocError, Global};

/// Appends the number of a step if the step is kept.
fn push_number(
    alloc: Global,
    numbers: &mut Vec<String>,
    kept: bool,
    step: u16,
) -> Result<(), AllocError>
    ensures { OnOk result (map string_bytes numbers.new.items
        ≡ map string_bytes numbers.old.items ++ spec.number_if kept step) }
{
    if kept {
        numbers.push(format!(in alloc; "{step}")?)?;
    }
    Ok(())
}

/// Returns the numbers of the steps in the goal.
fn kept_numbers(alloc: Global, saga: &Saga<'_, '_>) -> Result<Vec<String>, AllocError>
    ensures { IfOk result (λ numbers. map string_bytes numbers.items
        ≡ spec.kept_below saga.now.changes (length saga.now.definition.steps)) }
{
    let mut numbers = Vec::new(alloc);
    let count = saga.definition().steps();
    for step in 0..count as u16 {
        push_number(alloc, &mut numbers, saga.in_goal(step), step)?;
    }
    Ok(numbers)
}

/// Returns the words for the states of the steps.
fn state_words(alloc: Global, saga: &Saga<'_, '_>) -> Result<Vec<&'static str>, AllocError>
    ensures { IfOk result (λ words. map (λ w. w.now) words.items
        ≡ spec.states_below saga.now.changes (length saga.now.definition.steps)) }
{
    let mut words: Vec<&'static str> = Vec::new(alloc);
    let count = saga.definition().steps();
    for step in 0..count as u16 {
        words.push(saga.state(step).word())?;
    }
    Ok(words)
}

/// Returns the answer that a saga adopted last. Searches the events backward, at most to the opening of the saga.
fn last_answer<'b>(book: &'b Book<'_>, saga: u32) -> Option<&'b Answer>
    ensures { option_map (λ a. a.now) result
        ≡ spec.last_answer (changes_in book.entry.now saga) }
{
    let history = book.history();
    let mut left = history.len();
    while left > 0 {
        left -= 1;
        let event = &history[left];
        if event.saga() == saga {
            match event {
                Event::Adopt(_, adopted) => return Some(adopted.answer()),
                Event::Open(..) => return None,
                _ => {}
            }
        }
    }
    None
}

/// Returns the part of the text with an answer.
fn told_answer(alloc: Global, answer: &Answer) -> Result<String, AllocError>
    ensures { IfOk result
        (λ text. string_bytes text ≡ spec.answer_text (Some answer.now)) }
{
    let written = write_answer(alloc, answer)?;
    [",\"answer\":", written.as_str()].concat(alloc)
}

/// Returns the part of the text with the last answer of a saga, if there is one.
fn answer_text(alloc: Global, book: &Book<'_>, saga: u32) -> Result<String, AllocError>
    ensures { IfOk result (λ text. string_bytes text
        ≡ spec.answer_text (spec.last_answer (changes_in book.now saga))) }
{
    match last_answer(book, saga) {
        None => Ok(String::new(alloc)),
        Some(answer) => told_answer(alloc, answer),
    }
}

/// Returns the start of the text of a saga.
fn head_text(alloc: Global, aborted: &str, answer: &str, kept: &str) -> Result<String, AllocError>
    ensures { IfOk result
        (λ text. string_bytes text ≡ spec.head_text aborted.now answer.now kept.now) }
{
    ["{\"aborted\":", aborted, answer, ",\"kept\":[", kept, "]"].concat(alloc)
}

/// Returns the end of the text of a saga.
fn tail_text(alloc: Global, states: &str) -> Result<String, AllocError>
    ensures { IfOk result (λ text. string_bytes text ≡ spec.tail_text states.now) }
{
    [",\"states\":[\"", states, "\"]}\n"].concat(alloc)
}

/// Returns the text of a saga, from its start, its name, its phase, its number and its end.
fn shown_text(
    alloc: Global,
    head: &str,
    name: &str,
    phase: &str,
    saga: u32,
    tail: &str,
) -> Result<String, AllocError>
    ensures { IfOk result (λ text. string_bytes text
        ≡ spec.shown_text head.now name.now phase.now saga tail.now) }
{
    let mut buffer = Buffer::new();
    let mut text = String::from_str(alloc, head)?;
    text.push_str(",\"name\":\"")?;
    text.push_str(name)?;
    text.push_str("\",\"phase\":\"")?;
    text.push_str(phase)?;
    text.push_str("\",\"saga\":")?;
    text.push_str(buffer.format(saga as u64))?;
    text.push_str(tail)?;
    Ok(text)
}

/// Returns the state of the saga with this number, or `None` if the saga does not exist.
pub fn show_text(alloc: Global, book: &Book<'_>, saga: u32) -> Result<Option<String>, AllocError>
    ensures { IfOk result (λ shown. MatchOption shown (IsUnknown book.now saga)
        (λ text. spec.TellsSaga book.now saga (string_bytes text))) }
{
    let Some(found) = book.saga(saga) else {
        return Ok(None);
    };
    let aborted = truth_text(found.is_aborted());
    let phase = found.phase().word();
    let kept = listed(alloc, &kept_numbers(alloc, &found)?)?;
    let states = listed_words(alloc, &state_words(alloc, &found)?)?;
    let answer = answer_text(alloc, book, saga)?;
    let head = head_text(alloc, aborted, answer.as_str(), kept.as_str())?;
    let tail = tail_text(alloc, states.as_str())?;
    let name = found.definition().name();
    let text = shown_text(alloc, head.as_str(), name, phase, saga, tail.as_str())?;
    Ok(Some(text))
}
