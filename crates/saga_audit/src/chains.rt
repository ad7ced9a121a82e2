//! The events of each saga of a group, one after the other.
ghost use Rattle.std.specs.Prelude.{◌≡◌, ◌<◌, IfOk};
ghost use Rattle.std.specs.BTreeMap.{get};
ghost use Rattle.std.specs.Ordering.{nat_cmp};
ghost use Rattle.saga_audit.specs.Chains.{AreChains};
ghost use Rattle.saga_audit.specs.Groups.{is_in};

use saga_history::Event;
use std::alloc::{AllocError, Global};
use std::collections::BTreeMap;

/// The index of an event in the history, and the link of the next event of the same saga.
#[derive(Clone, Copy, Debug)]
pub struct Link {
    pub place: usize,
    pub next: Option<usize>,
}

/// A link for each event of a group of sagas; and, for each saga with an event, the link of its
/// first event.
#[derive(Drop)]
pub struct Chains {
    pub links: Vec<Link>,
    pub heads: BTreeMap<u32, usize>,
}

/// Returns whether a saga is in a group: whether its number has the remainder of the group.
pub fn is_in(workers: u32, group: u32, saga: u32) -> bool
    requires { 0 < workers }
    ensures { result ≡ is_in workers group saga }
{
    saga % workers == group
}

/// Links the events of a group of sagas. Visits the history from its end, so that each event finds
/// the next event of its saga.
pub fn chains_of(
    alloc: Global,
    events: &[Event],
    workers: u32,
    group: u32,
) -> Result<Chains, AllocError>
    requires { 0 < workers }
    ensures { IfOk result
        (λ chains. AreChains (is_in workers group) events.now chains.links.items
        (get nat_cmp chains.heads) 0) }
{
    let mut links = Vec::new(alloc);
    let mut heads = BTreeMap::new(alloc);
    let mut place = events.len();
    while place > 0 {
        place -= 1;
        let saga = events[place].saga();
        if is_in(workers, group, saga) {
            let next = heads.insert(saga, links.len())?;
            links.push(Link { place, next })?;
        }
    }
    Ok(Chains { links, heads })
}
