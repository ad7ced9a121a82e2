//! Laws of smallest plans and of rounds. The function has an empty body: its contract is the law.
ghost use Rattle.saga_case.specs.Terms.{Terms};
ghost use Rattle.saga_plan.specs.Laws.{HasNoRoundsForNoSteps, HasNoRoundsForNothing, KeepsOneSet};

use saga_case::Answer;

/// For every case, all smallest plans keep the same steps. A plan that costs nothing takes no
/// round, and a plan for no steps takes no round.
#[tactic(auto, using(crate::proofs::LawLemmas::keeps_one_set, crate::proofs::LawLemmas::has_no_rounds_for_nothing, crate::proofs::LawLemmas::has_no_rounds_for_no_steps))]
pub fn plan_laws(answer: &Answer)
    ensures smallest { (t : Terms) → KeepsOneSet t }
    ensures free { HasNoRoundsForNothing answer.now }
    ensures empty { (t : Terms) → HasNoRoundsForNoSteps t answer.now }
{}
