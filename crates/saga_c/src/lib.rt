//! The interface for C. A call takes texts, and returns a text and a status. `library/sagas.h` documents the calls.
//!
//! The calls of `exports` keep and share no state, so any number of threads may call them at the same time. A
//! coordinator of `coordinators` keeps state between calls, and only one thread at a time may use it.
#![tactic(auto)]

mod blocks;
mod coordinators;
mod exports;
mod faults;
mod filling;
mod leases;
mod pieces;
mod sessions;
mod starts;
