//! Definitions, cases, answers, scripts and logs as texts, and functions that read them.
use anyhow::{Result, bail};
use saga_case::{Answer, Case};
use saga_cert::{read_answer, read_case, write_answer};
use saga_check::{Verdict, verify};
use saga_core::Book;
use saga_def::Definition;
use saga_history::Event;
use saga_log::{LogFault, read_log};
use saga_text::read_definition;
use std::alloc::Global;

/// Three steps, each of which needs the one before it.
pub const TRIP: &str = "\
format = 1
name = \"trip\"
step = [
  { name = \"a\", undo = 1, keep = 5 },
  { name = \"b\", needs = [\"a\"], undo = 2, keep = 5 },
  { name = \"c\", needs = [\"b\"] },
]
";

/// The case in which the last step has failed.
pub const TRIP_CASE: &str = "{\"states\":[\"committed\",\"committed\",\"failed\"]}";

/// The plan that keeps no step.
pub const TRIP_ANSWER: &str =
    "{\"cost\":3,\"kept\":[],\"kind\":\"plan\",\"leave\":[1,2,0],\"links\":[0,0],\"stand\":[1,2,0]}";

/// The log of that run.
pub const TRIP_LOG: &str = "\
{\"def\":0,\"event\":\"open\",\"saga\":0}
{\"event\":\"start_run\",\"saga\":0,\"step\":0}
{\"event\":\"commit\",\"saga\":0,\"step\":0}
{\"event\":\"start_run\",\"saga\":0,\"step\":1}
{\"event\":\"commit\",\"saga\":0,\"step\":1}
{\"event\":\"start_run\",\"saga\":0,\"step\":2}
{\"event\":\"fail\",\"saga\":0,\"step\":2}
{\"event\":\"start_plan\",\"saga\":0}
{\"answer\":{\"cost\":3,\"kept\":[],\"kind\":\"plan\",\"leave\":[1,2,0],\"links\":[0,0],\"stand\":[1,2,0]},\"event\":\"adopt\",\"saga\":0}
{\"event\":\"start_undo\",\"saga\":0,\"step\":1}
{\"event\":\"undone\",\"saga\":0,\"step\":1}
{\"event\":\"start_undo\",\"saga\":0,\"step\":0}
{\"event\":\"undone\",\"saga\":0,\"step\":0}
";

/// A log in which no plan is adopted.
pub const DROPPED_LOG: &str = "\
{\"format\":2}
{\"def\":0,\"event\":\"open\",\"saga\":0}
{\"event\":\"start_run\",\"saga\":0,\"step\":0}
{\"event\":\"commit\",\"saga\":0,\"step\":0}
{\"event\":\"start_run\",\"saga\":0,\"step\":1}
{\"event\":\"fail\",\"saga\":0,\"step\":1}
{\"event\":\"start_plan\",\"saga\":0}
{\"event\":\"drop_plan\",\"saga\":0}
{\"event\":\"abort\",\"saga\":0}
{\"event\":\"start_plan\",\"saga\":0}
";

/// A definition with one step, which must not be left out.
pub const FORCED: &str =
    "format = 1\nname = \"one\"\nstep = [{ name = \"a\", skip = \"never\" }]\n";

/// The case in which this step has failed.
pub const FORCED_CASE: &str = "{\"states\":[\"failed\"]}";

/// The answer that no set of steps is allowed.
pub const FORCED_ANSWER: &str = "{\"chain\":[0],\"kind\":\"blocked\"}";

/// Two steps, of which the second needs the first. The first step has nine tries, and so has its compensation.
pub const STUBBORN: &str = "\
format = 2
name = \"stubborn\"
step = [{ name = \"a\", tries = 9, undo_tries = 9 }, { name = \"b\", needs = [\"a\"] }]
";

/// The case in which the second step has failed.
pub const STUBBORN_CASE: &str = "{\"states\":[\"committed\",\"failed\"]}";

/// The plan that keeps no step and costs 0.
pub const STUBBORN_ANSWER: &str =
    "{\"cost\":0,\"kept\":[],\"kind\":\"plan\",\"leave\":[0,0],\"links\":[0],\"stand\":[0,0]}";

/// The texts of an example.
#[derive(Clone, Copy)]
pub struct Sample {
    pub definition: &'static str,
    pub case: &'static str,
    pub answer: &'static str,
}

/// The trip, whose last step fails.
pub const FAILED: Sample = Sample {
    definition: TRIP,
    case: TRIP_CASE,
    answer: TRIP_ANSWER,
};

/// The step that must not be left out.
pub const STUCK: Sample = Sample {
    definition: FORCED,
    case: FORCED_CASE,
    answer: FORCED_ANSWER,
};

/// The steps with many tries.
pub const RETRIED: Sample = Sample {
    definition: STUBBORN,
    case: STUBBORN_CASE,
    answer: STUBBORN_ANSWER,
};

/// The definition of a text.
pub fn definition(alloc: Global, text: &str) -> Result<Definition> {
    match read_definition(alloc, text.as_bytes()) {
        Ok(definition) => Ok(definition),
        Err(_) => bail!("no definition"),
    }
}

/// A shelf with only this definition.
pub fn shelf(alloc: Global, text: &str) -> Result<Vec<Definition>> {
    let mut shelf = Vec::new(alloc);
    shelf.push(definition(alloc, text)?)?;
    Ok(shelf)
}

/// The first definition of a shelf.
pub fn first(shelf: &[Definition]) -> Result<&Definition> {
    match shelf.first() {
        Some(definition) => Ok(definition),
        None => bail!("an empty shelf"),
    }
}

/// The case of a text.
pub fn case<'d>(alloc: Global, definition: &'d Definition, text: &str) -> Result<Case<'d>> {
    match read_case(alloc, definition, text.as_bytes()) {
        Ok(case) => Ok(case),
        Err(_) => bail!("no case"),
    }
}

/// The answer of a text.
pub fn answer(alloc: Global, text: &str) -> Result<Answer> {
    match read_answer(alloc, text.as_bytes()) {
        Ok(answer) => Ok(answer),
        Err(_) => bail!("no answer"),
    }
}

/// The verdict on an answer to a case.
pub fn verdict<'d>(
    alloc: Global,
    definition: &'d Definition,
    of: &str,
    by: &str,
) -> Result<Verdict<'d>> {
    let asked = case(alloc, definition, of)?;
    match verify(asked, answer(alloc, by)?) {
        Ok(verdict) => Ok(verdict),
        Err(_) => bail!("not right"),
    }
}

/// The events of a log.
pub fn events(alloc: Global, log: &str) -> Result<Vec<Event>> {
    match read_log(alloc, log.as_bytes()) {
        Ok(events) => Ok(events),
        Err(LogFault::BadLine { line, .. }) => bail!("a fault in line {line}"),
        Err(LogFault::OutOfMemory) => bail!("out of memory"),
    }
}

/// The book of a history.
pub fn book(alloc: Global, shelf: &[Definition], events: Vec<Event>) -> Result<Book<'_>> {
    match Book::replay(alloc, shelf, 0, 1, events) {
        Ok(book) => Ok(book),
        Err(_) => bail!("not replayed"),
    }
}
