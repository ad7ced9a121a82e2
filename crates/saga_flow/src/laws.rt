//! Laws of the values of flows. The function has an empty body: its contract is the law.
ghost use Rattle.saga_flow.specs.Laws.{HasOneGreatest, HasOneValue};

use crate::nets::Arc;

/// For every list of arcs, amounts on them have one value, and all maximum flows have the same value.
#[tactic(auto, using(crate::proofs::LawLemmas::has_one_value))]
pub fn value_laws(arcs: &[Arc])
    ensures value { HasOneValue arcs.now }
    ensures greatest { HasOneGreatest arcs.now }
{}
