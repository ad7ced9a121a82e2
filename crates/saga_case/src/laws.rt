//! Laws of minimum-cost sets, of faults and of first busy steps, about the definitions alone; and the value of the
//! limit. In names, *least* means minimum-cost.
ghost use Rattle.std.specs.Prelude.{◌≡◌, ◌<◌, ℕ, length, slice_get, slice_index_or, IfSome, IsTrue, false};
ghost use Rattle.saga_def.specs.declared.steps.Price.TheVariants.{Never};
ghost use Rattle.saga_def.specs.Contents.{Contents};
ghost use Rattle.saga_def.specs.Order.{Steps};
ghost use Rattle.saga_case.specs.Free.{IsFree, none};
ghost use Rattle.saga_case.specs.Laws.{HasNoBusy, HasNoFault, HasNoLeast, HasOneFault, HasOneFirstBusy, HasOneLeastCost};
ghost use Rattle.saga_case.specs.Limits.{max_step_price};
ghost use Rattle.saga_case.specs.Members.{AllowedSets, HasEach, HasNone};
ghost use Rattle.saga_case.specs.Terms.{Terms, terms_of, IsAllowed, IsLeast};
ghost use Rattle.saga_case.specs.declared.states.StepState.TheVariants.{Committed, Failed, Fixed, Undone, Waiting};

use crate::cases::Case;
use crate::prices::MAX_STEP_PRICE;
use crate::states::StepState;

/// Backward recovery: if every cost is 0 and no compensation failed permanently, the empty set is a minimum-cost set.
pub fn leaves_all_out_for_free(case: &Case)
    ensures { IsFree case.now → IsLeast (terms_of case.now) none }
{
    let _ = case.states();
}

/// A committed step whose compensation has the cost never is in each allowed set.
pub fn keeps_what_cannot_be_undone(case: &Case, step: u16)
    requires { step < length case.now.definition.steps }
    ensures { slice_index_or case.now.states step Waiting ≡ Committed
        → IfSome (slice_get case.now.definition.steps step) (λ s. s.undo ≡ Never)
        → (set : Steps) → IsAllowed (terms_of case.now) set → IsTrue (set step) }
{
    let _ = case.states();
}

/// An allowed set respects the states: it has no step that failed or was undone, and it has each step whose
/// compensation failed permanently.
pub fn keeps_to_the_states(case: &Case)
    ensures failed { AllowedSets (terms_of case.now) (HasNone case.now.states Failed) }
    ensures undone { AllowedSets (terms_of case.now) (HasNone case.now.states Undone) }
    ensures fixed { AllowedSets (terms_of case.now) (HasEach case.now.states Fixed) }
{
    let _ = case.states();
}

/// In an aborted case an allowed set has no waiting step, so no step that has not started is started.
pub fn begins_nothing_once_aborted(case: &Case)
    ensures { IsTrue case.now.aborted
        → AllowedSets (terms_of case.now) (HasNone case.now.states Waiting) }
{
    let _ = case.states();
}

/// The first fault and the first busy step are unique. At most one fault of states for a definition is the first that
/// applies, and there is none if the states form a case. At most one busy step is the first, and there is none if no
/// step is busy.
#[tactic(auto, using(crate::proofs::LawLemmas::has_one_fault, crate::proofs::LawLemmas::has_no_fault, crate::proofs::LawLemmas::has_one_first_busy, crate::proofs::LawLemmas::has_no_busy))]
pub fn fault_laws(states: &Vec<StepState>)
    ensures one { (d : Contents) → HasOneFault d states.now }
    ensures none { (d : Contents) → HasNoFault d states.now }
    ensures busy { HasOneFirstBusy states.now.items }
    ensures drained { HasNoBusy states.now.items }
{}

/// All minimum-cost sets have the same cost. If no set is allowed, there is no minimum-cost set.
#[tactic(auto, using(crate::proofs::LawLemmas::has_one_least_cost, crate::proofs::LawLemmas::has_no_least))]
pub fn least_laws()
    ensures cost { (t : Terms) → HasOneLeastCost t }
    ensures none { (t : Terms) → HasNoLeast t }
{}

/// The constant equals the number in the bound on costs.
pub fn limit_laws()
    ensures { MAX_STEP_PRICE ≡ max_step_price }
{}
