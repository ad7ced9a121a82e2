//! The list of sagas from a number on, with the phase of each.
ghost use Rattle.std.specs.Prelude.{◌≡◌, ◌++◌, IfOk, OnOk, map, string_bytes};
ghost use Rattle.saga_core.specs.Book.{definition_in};
ghost use Rattle.saga_views.specs.Phases.{ArePhases};
ghost use Rattle.saga_views.specs.Lists as spec;

use crate::phases::{is_same, phases_of};
use crate::ready::more_text;
use crate::words::listed;
use itoa::Buffer;
use saga_core::Book;
use saga_history::Phase;
use std::alloc::{AllocError, Global};

/// The maximum number of sagas in a list.
pub const MOST_SAGAS: usize = 100;

/// The texts of sagas, and the number from which to continue the list, if there are more.
#[derive(Drop)]
struct ToldSagas {
    texts: Vec<String>,
    more: Option<u32>,
}

fn is_wanted(wanted: Option<Phase>, phase: Phase) -> bool
    ensures { result ≡ spec.is_wanted wanted phase }
{
    match wanted {
        None => true,
        Some(wanted) => is_same(wanted, phase),
    }
}

/// Returns whether the list has a saga, from its number and its phase.
fn is_told(from: u32, wanted: Option<Phase>, saga: u32, phase: Phase) -> bool
    ensures { result ≡ spec.is_told from wanted saga phase }
{
    from <= saga && is_wanted(wanted, phase)
}

/// Returns the text of a saga: its name, its phase and its number.
fn named_text(alloc: Global, name: &str, phase: &str, saga: u32) -> Result<String, AllocError>
    ensures { IfOk result
        (λ text. string_bytes text ≡ spec.named_text name.now phase.now saga) }
{
    let mut buffer = Buffer::new();
    let saga = buffer.format(saga as u64);
    [
        "{\"name\":\"",
        name,
        "\",\"phase\":\"",
        phase,
        "\",\"saga\":",
        saga,
        "}",
    ]
    .concat(alloc)
}

/// Returns the name of a saga. It is empty if the saga does not exist.
fn name_of<'d>(book: &Book<'d>, saga: u32) -> &'d str
    ensures { result.now ≡ spec.name_by (definition_in book.now saga) }
{
    match book.saga(saga) {
        None => "",
        Some(saga) => saga.definition().name(),
    }
}

/// Appends the text of a saga if the list has this saga.
fn push_saga(
    alloc: Global,
    texts: &mut Vec<String>,
    book: &Book<'_>,
    told: bool,
    phase: Phase,
    saga: u32,
) -> Result<(), AllocError>
    ensures { OnOk result (map string_bytes texts.new.items ≡ map string_bytes texts.old.items
        ++ spec.text_if told (spec.saga_text book.now phase saga)) }
{
    if told {
        let name = name_of(book, saga);
        texts.push(named_text(alloc, name, phase.word(), saga)?)?;
    }
    Ok(())
}

/// Returns the sagas of a phase, or all sagas, from a number on.
fn told_sagas(
    alloc: Global,
    book: &Book<'_>,
    from: u32,
    wanted: Option<Phase>,
    phases: &[Phase],
) -> Result<ToldSagas, AllocError>
    requires { ArePhases book.now phases.now }
    ensures { IfOk result (λ told. spec.AreTold book.now from wanted phases.now
        (map string_bytes told.texts.items) told.more) }
{
    let mut texts = Vec::new(alloc);
    let first = book.first();
    let stride = book.stride();
    for place in 0..book.sagas() {
        let saga = first + place as u32 * stride;
        let phase = phases[place];
        let told = is_told(from, wanted, saga, phase);
        if told && texts.len() >= MOST_SAGAS {
            return Ok(ToldSagas {
                texts,
                more: Some(saga),
            });
        }
        push_saga(alloc, &mut texts, book, told, phase, saga)?;
    }
    Ok(ToldSagas { texts, more: None })
}

/// Returns the list of the sagas of a phase, or of all sagas, from a number on. It has at most 100 sagas, and the
/// number from which to continue if there are more. Takes time linear in the sagas.
pub fn list_text(
    alloc: Global,
    book: &Book<'_>,
    from: u32,
    wanted: Option<Phase>,
) -> Result<String, AllocError>
    ensures { IfOk result (λ text. spec.TellsList book.now from wanted (string_bytes text)) }
{
    let phases = phases_of(alloc, book)?;
    let told = told_sagas(alloc, book, from, wanted, &phases)?;
    let head = more_text(alloc, told.more)?;
    let listed = listed(alloc, &told.texts)?;
    [head.as_str(), "\"sagas\":[", listed.as_str(), "]}\n"].concat(alloc)
}
