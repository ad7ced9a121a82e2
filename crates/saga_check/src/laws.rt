//! Laws of the faults of answers. The function has an empty body: its contract is the law.
ghost use Rattle.saga_case.specs.Terms.{Terms};
ghost use Rattle.saga_check.specs.Laws.{HasNoFault, HasOneFault};

use saga_case::Answer;

/// For every case, at most one fault of an answer is the first that applies, and a right answer has none.
#[tactic(auto, using(crate::proofs::FaultLemmas::has_one_fault, crate::proofs::FaultLemmas::has_no_fault))]
pub fn fault_laws(answer: &Answer)
    ensures one { (t : Terms) → HasOneFault t answer.now }
    ensures none { (t : Terms) → HasNoFault t answer.now }
{}
