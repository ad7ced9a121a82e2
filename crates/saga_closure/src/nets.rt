//! The network of a case over its definition's adjacency lists. The arcs are not stored.
//!
//! The arc from the source to a step has the step's number. The arc from a step to the sink has the step's number plus
//! the number of steps. The needs follow, in the order of their indices. The needs of a step, and the needs on it, are
//! the definition's own lists.
ghost use Rattle.std.specs.Prelude.{◌≡◌, ◌≤◌, ◌+◌, ◌^◌, ℕ, length, slice_index};
ghost use Rattle.saga_def.specs.Order.{IsAcyclic};
ghost use Rattle.saga_def.specs.Rules.{AreKnown, AreSingle};
ghost use Rattle.saga_closure.specs.Capacities.{terms_by};
ghost use Rattle.saga_closure.specs.CaseNet.{network_of};

use saga_def::Definition;

/// The network over a definition with these capacities. For each step there is the capacity of the arc from the source,
/// and then for each step that of the arc to the sink. The value 2^63 means unbounded.
#[derive(Clone, Copy)]
pub struct ClosureNet<'a> {
    pub definition: &'a Definition,
    pub caps: &'a [u64],
    ghost few: { length definition.now.steps ≤ 1024 },
    ghost known: { AreKnown definition.now.needs (length definition.now.steps) },
    ghost single: { AreSingle definition.now.needs },
    ghost acyclic: { IsAcyclic definition.now.needs },
    ghost sized: { length caps.now ≡ length definition.now.steps + length definition.now.steps },
    ghost small: { (k : ℕ) → slice_index caps.now k ≤ 2 ^ 63 },
}

/// The residual network for these amounts, one for each arc.
#[derive(Clone, Copy)]
pub struct Residual<'a> {
    pub net: &'a ClosureNet<'a>,
    pub on: &'a [u64],
    ghost amounts: { length on.now ≡ length (network_of (terms_by net.now.definition.now net.now.caps.now)).arcs },
}
