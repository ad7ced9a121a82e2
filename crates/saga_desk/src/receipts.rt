//! Receipts: the records of the events that a seat added.
use saga_history::Mark;

/// A record that an event was added: the shard, the event's mark, and its index, from 0, in the shard's history.
#[derive(Clone, Copy, Debug, PartialEq, Eq)]
pub struct Receipt {
    pub shard: u32,
    pub mark: Mark,
    pub place: usize,
}

const _: () = prove!(size_of::<Receipt>() <= 24);
