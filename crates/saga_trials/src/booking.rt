//! An example of a program that embeds the crates: a booking service that executes sagas.
//!
//! Standard input has the definition of a trip. The service first books the trips in one thread, one task after
//! another, and then with four workers. `docs/EMBEDDING.md` describes the program.
use crate::agency::Agency;
use crate::trips::{Entry, drive, drive_by_workers};
use anyhow::{Result, bail, ensure};
use saga_core::Book;
use saga_def::Definition;
use saga_report::report;
use saga_text::read_definition;
use std::sync::Wait;
use std::thread::Threads;

/// The trips to book. Each has the first definition of the shelf.
const TRIPS: [u32; 3] = [0, 0, 0];

/// A shelf with the definition from standard input.
fn shelf(rt: &HostRuntime) -> Result<Vec<Definition>> {
    let text = std::io::read_to_string(rt.alloc(), rt.reader())?;
    let mut shelf = Vec::new(rt.alloc());
    match read_definition(rt.alloc(), text.as_bytes()) {
        Ok(trip) => shelf.push(trip)?,
        Err(fault) => bail!("refused: {fault:?}"),
    }
    Ok(shelf)
}

/// Books the trips in one thread, and returns the entries of what was done.
fn booked(rt: &HostRuntime, agency: &Agency, shelf: &[Definition]) -> Result<Vec<Entry>> {
    let mut book = Book::new(rt.alloc(), shelf, 0, 1);
    for place in TRIPS {
        ensure!(book.open(place).is_ok(), "not opened");
    }
    drive(rt.alloc(), agency, &mut book)
}

/// Books the trips with workers, and prints the report.
fn report_of_workers<R: Threads + Wait + Sync>(
    threads: &R,
    rt: &HostRuntime,
    agency: &Agency,
    shelf: &[Definition],
) -> Result<()> {
    let books = drive_by_workers(threads, rt.alloc(), agency, shelf, &TRIPS)?;
    let histories: Vec<_> = books.iter().map(Book::history).collect(rt.alloc())?;
    print!(rt; "{}", report(rt.alloc(), shelf, &histories)?)?;
    Ok(())
}

/// Books the trips in both ways.
pub fn run<R: Threads + Wait + Sync>(threads: &R, rt: &HostRuntime) -> Result<()> {
    let shelf = shelf(rt)?;
    let Some(trip) = shelf.first() else {
        bail!("no trip");
    };
    let agency = Agency::of(rt.alloc(), trip)?;
    for entry in booked(rt, &agency, &shelf)? {
        println!(rt; "{entry:?}")?;
    }
    report_of_workers(threads, rt, &agency, &shelf)
}
