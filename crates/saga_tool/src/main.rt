//! The program `sagas`: runs sagas, finds a minimum-cost plan for a saga in which a step has failed, and checks such
//! plans.
//!
//! Functions over bytes do the work, and `run` connects them to an abstract outside world. `main` calls `run` with the
//! system and the arguments.
#![tactic(auto)]

mod arguments;
mod commands;
mod files;
mod forms;
mod input;
mod limits;
mod logs;
mod outside;
mod parts;
mod program;
mod records;
mod responses;
mod showing;
mod system;
mod words;

use crate::outside::Outside;
use crate::program::{run, without_words};
use crate::system::System;
use std::alloc::Global;
use std::env;
use std::io::{self, IsTerminal};
use std::process::ExitCode;
use std::sync::Wait;
use std::thread::Threads;

/// The arguments after the program's name.
fn words_of(rt: &HostRuntime) -> io::Result<Vec<String>> {
    let mut words = Vec::new(rt.alloc());
    for word in env::args(rt)?.skip(1) {
        words.push(word)?;
    }
    Ok(words)
}

/// The exit status of a run with the arguments of the command line.
fn status_of<R: Threads + Wait + Sync>(
    rt: &R,
    outside: &impl Outside,
    alloc: Global,
    words: &[String],
) -> io::Result<u8> {
    let words: Vec<&str> = words.iter().map(|word| word.as_str()).collect(alloc)?;
    Ok(run(rt, outside, alloc, &words))
}

fn main(rt: HostRuntime) -> ExitCode {
    let system = System {
        rt: &rt,
        is_terminal: rt.stdin().is_terminal(),
    };
    let status = match words_of(&rt) {
        Ok(words) => status_of(&rt, &system, rt.alloc(), &words),
        Err(error) => Err(error),
    };
    ExitCode::from(match status {
        Ok(status) => status,
        Err(error) => without_words(&system, &error),
    })
}
