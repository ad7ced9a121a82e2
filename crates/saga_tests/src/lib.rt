//! Tests of cases that neither the program's tests nor the trials cover: faults that only a caller of the crates can
//! cause, and the behavior of actors, bells and several threads.
#![tactic(auto)]

#[cfg(test)]
mod calls;
#[cfg(test)]
mod desks;
#[cfg(test)]
mod examples;
#[cfg(test)]
mod readers;
#[cfg(test)]
mod samples;
#[cfg(test)]
mod workers;
