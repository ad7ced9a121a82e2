//! Laws of the faults of definitions, and the values of the limits. The functions have empty bodies: their contracts
//! are the laws.
ghost use Rattle.std.specs.Prelude.{◌≡◌};
ghost use Rattle.saga_def.specs.Contents.{Contents};
ghost use Rattle.saga_def.specs.Laws.{CyclesAreShort, CyclesRepeatNone, HasNoFault, HasOneFault};
ghost use Rattle.saga_def.specs.Limits.{max_name, max_needs, max_price, max_steps, max_tries};

use crate::limits::{MAX_NAME, MAX_NEEDS, MAX_PRICE, MAX_STEPS, MAX_TRIES};

/// For every input of [`Definition::build`](crate::Definition::build), at most one kind of fault is the first that
/// applies, except for lack of memory. If the contents are sound, there is no fault. A cycle in a fault has no step
/// twice, so it has at most as many steps as the definition.
#[tactic(auto, using(crate::proofs::FaultLemmas::has_one_fault, crate::proofs::FaultLemmas::has_no_fault, crate::proofs::CycleLemmas::cycles_repeat_none, crate::proofs::CycleLemmas::cycles_are_short))]
pub fn fault_laws()
    ensures one { (c : Contents) → HasOneFault c }
    ensures none { (c : Contents) → HasNoFault c }
    ensures simple { (c : Contents) → CyclesRepeatNone c }
    ensures short { (c : Contents) → CyclesAreShort c }
{}

/// The constants equal the numbers in the rules.
pub fn limit_laws()
    ensures steps { MAX_STEPS ≡ max_steps }
    ensures needs { MAX_NEEDS ≡ max_needs }
    ensures name { MAX_NAME ≡ max_name }
    ensures price { MAX_PRICE ≡ max_price }
    ensures tries { MAX_TRIES ≡ max_tries }
{}
