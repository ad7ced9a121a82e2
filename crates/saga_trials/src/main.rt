//! Trials of public calls under refused memory that no command of the program makes: the calls of a desk, and others. The program also has a booking service that embeds the crates.
//!
//! `names` prints the kind and the name of each trial. The kind is `each` if one allocation after another is refused,
//! `none` if every allocation is refused, and `ample` for inputs of the maximum size with ample memory. `try NAME`
//! makes a trial: it makes the call, and repeats it if memory was refused. It prints `refused` or `whole`, or what is
//! wrong. `book` books the trips of [`booking`] with the definition from standard input. Without words, the program
//! makes each trial once with ample memory, and books the trips.
//!
//! The program itself refuses no memory. It prints on standard error where the calls start and end. A library that is
//! loaded before the C library reads that and refuses allocations there (`tests/memory.py`).
#![tactic(auto)]

mod agency;
mod booking;
mod calls;
mod desks;
mod greatest;
mod nets;
mod samples;
mod trial;
mod trips;

use crate::calls::Call;
use crate::greatest::Size;
use crate::nets::Flow;
use crate::trial::Trial;
use Tried::{Alone, Desk, Great, Net};
use anyhow::{Context, Result, bail, ensure};
use std::env;
use std::sync::Wait;
use std::thread::Threads;

/// What is tried: calls of a desk, given by a script, or a single call.
#[derive(Clone, Copy)]
enum Tried {
    Desk(desks::Script),
    Alone(Call),
    Net(Flow),
    Great(Size),
}

/// The trials: the kind and the name of each, and what is tried.
const TRIALS: &[(&str, Tried)] = &[
    ("each saga_desk::Desk::open_saga", Desk(desks::OPEN)),
    ("each saga_desk::Desk::claim", Desk(desks::CLAIM)),
    ("each saga_desk::Desk::claim,misses", Desk(desks::MISS)),
    ("each saga_desk::Desk::abort", Desk(desks::ABORT)),
    ("none saga_desk::Desk::report", Desk(desks::REPORT)),
    ("none saga_desk::Desk::adopt", Desk(desks::ADOPT)),
    ("none saga_desk::Desk::give_back", Desk(desks::GIVE_BACK)),
    ("none saga_desk::Desk,long", Desk(desks::LONG)),
    ("each saga_order::Order::of", Alone(Call::Order)),
    ("each saga_cert::write_case", Alone(Call::WriteCase)),
    (
        "each saga_history::first_not_allowed",
        Alone(Call::NotAllowed),
    ),
    (
        "none saga_history::first_not_allowed,none-adopted",
        Alone(Call::NoneAdopted),
    ),
    ("each saga_drive::audit_trail", Alone(Call::Trail)),
    ("each saga_flow::unbounded_path", Net(Flow::Path)),
    ("each saga_flow::largest", Net(Flow::Largest)),
    ("each saga_flow::largest_counted", Net(Flow::Counted)),
    ("each saga_flow::reach", Net(Flow::Reach)),
    ("ample saga_order::Order::of,greatest", Great(Size::Order)),
    ("ample saga_flow::largest,greatest", Great(Size::Largest)),
    ("ample saga_plan::plan,greatest", Great(Size::Plan)),
];

/// Returns the trials. A use of the constant itself would be checked with all its rows.
fn trials() -> &'static [(&'static str, Tried)] {
    TRIALS
}

/// Makes a trial.
fn run<R: Wait>(rt: &R, trial: &mut Trial<'_>, how: &str, tried: Tried) -> Result<()> {
    trial.refuses = how == "each";
    match tried {
        Desk(script) => desks::run(rt, trial, script),
        Alone(call) => calls::run(trial, call),
        Net(call) => nets::run(trial, call),
        Great(which) => greatest::run(trial, which),
    }
}

/// Makes the trials with a name, or all, and returns their number.
fn run_named<R: Wait>(rt: &R, trial: &mut Trial<'_>, wanted: Option<&str>) -> Result<usize> {
    let mut count = 0usize;
    for (row, tried) in trials() {
        let (how, name) = row.split_once(' ').context("a row without a name")?;
        if wanted.is_none() || wanted == Some(name) {
            run(rt, trial, how, *tried).context(format_args!("{name}"))?;
            count = count.saturating_add(1);
        }
    }
    Ok(count)
}

/// Makes the trial with a name.
fn try_named<R: Wait>(waits: &R, rt: &HostRuntime, name: Option<String>) -> Result<()> {
    let name = name.context("a name is missing")?;
    let mut trial = Trial::new(rt);
    let count = run_named(waits, &mut trial, Some(name.as_str()))?;
    ensure!(count == 1, "no trial {name}");
    println!(rt; "{}", if trial.refused { "refused" } else { "whole" })?;
    Ok(())
}

/// Makes each trial, and books trips.
fn run_all<R: Threads + Wait + Sync>(threads: &R, rt: &HostRuntime) -> Result<()> {
    let mut trial = Trial::new(rt);
    let count = run_named(threads, &mut trial, None)?;
    println!(rt; "trials {count} whole")?;
    booking::run(threads, rt)
}

/// Prints the kind and the name of each trial.
fn print_names(rt: &HostRuntime) -> Result<()> {
    for (row, _) in trials() {
        println!(rt; "{row}")?;
    }
    Ok(())
}

fn main(rt: HostRuntime) -> Result<()> {
    let mut words = env::args(&rt)?.skip(1);
    let Some(what) = words.next() else {
        return run_all(&rt, &rt);
    };
    match what.as_str() {
        "names" => print_names(&rt),
        "try" => try_named(&rt, &rt, words.next()),
        "book" => booking::run(&rt, &rt),
        _ => bail!("names, try or book?"),
    }
}
