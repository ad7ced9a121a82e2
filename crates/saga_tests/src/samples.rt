//! Definitions whose costs are all 0, and helpers of tests.
ghost use Rattle.std.specs.Prelude.{◌<◌, ◌≤◌};

use saga_core::Book;
use saga_def::Price::Of;
use saga_def::{Definition, Need, Step, Text};
use std::alloc::{Alloc, Global};
use std::fmt::Debug;
use std::process::Abort;

fn step<R: Abort + Alloc<A = Global>>(rt: &R, place: u32, tries: u64) -> Step {
    let name = format!(in rt.alloc(); "s{place}").expect(rt, "a name");
    Step {
        name: Text::new(name),
        run: Of(0),
        undo: Of(0),
        skip: Of(0),
        keep: Of(0),
        tries,
        undo_tries: tries,
    }
}

/// The needs of the steps of a definition.
#[derive(Clone, Copy)]
pub enum Needs {
    Nothing,
    /// Each step needs the one before it.
    InARow,
    /// Each step except the first needs the first.
    First,
    /// After the first step, the steps form pairs. Each step of a pair needs the last step before the pair.
    Pairs,
}

/// A shelf with one definition of `count` steps. Each step and its compensation have `tries` tries.
pub fn shelf_of<R: Abort + Alloc<A = Global>>(
    rt: &R,
    count: u32,
    tries: u64,
    needs_of: Needs,
) -> Vec<Definition> {
    let alloc = rt.alloc();
    let mut steps = Vec::new(alloc);
    let mut needs = Vec::new(alloc);
    for place in 0..count {
        steps.push(step(rt, place, tries)).expect(rt, "a step");
        let on = match needs_of {
            Needs::InARow if place > 0 => Some(place - 1),
            Needs::First if place > 0 => Some(0),
            Needs::Pairs if place > 0 => Some((place - 1) / 2 * 2),
            _ => None,
        };
        if let Some(on) = on {
            needs.push(Need { step: place, on }).expect(rt, "a need");
        }
    }
    let name = Text::new(String::from_str(alloc, "saga").expect(rt, "a name"));
    let definition = Definition::build(alloc, name, steps, needs).expect(rt, "a definition");
    let mut shelf = Vec::new(alloc);
    shelf.push(definition).expect(rt, "a shelf");
    shelf
}

/// The numbers of events of the first two books.
pub fn lengths<R: Abort + Alloc<A = Global>>(rt: &R, books: &[Book<'_>]) -> String {
    let first = books.first().map_or(0, |book| book.history().len());
    let second = books.get(1).map_or(0, |book| book.history().len());
    format!(in rt.alloc(); "books {first} {second}").expect(rt, "a text")
}

/// A value in its debug format.
pub fn told<R: Abort + Alloc<A = Global>, T: Debug>(rt: &R, value: &T) -> String {
    format!(in rt.alloc(); "{value:?}").expect(rt, "a text")
}

/// A word as an owned text.
pub fn text<R: Abort + Alloc<A = Global>>(rt: &R, word: &str) -> String {
    String::from_str(rt.alloc(), word).expect(rt, "a text")
}

/// A number of workers or shards, from 1 to 16.
pub fn within(count: u32) -> u32
    ensures some { 0 < result }
    ensures few { result ≤ 16 }
{
    if count == 0 { 1 } else { count.min(16) }
}
