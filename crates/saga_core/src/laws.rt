//! Laws of refusals. The function has an empty body: its contract is the law.
ghost use Rattle.std.specs.Prelude.{ℕ, List};
ghost use Rattle.saga_def.specs.Contents.{Contents};
ghost use Rattle.saga_case.specs.Situation.{Situation};
ghost use Rattle.saga_case.specs.declared.states.StepState.{StepState};
ghost use Rattle.saga_history.specs.Changes.{Change};
ghost use Rattle.saga_history.specs.declared.events.Event.{Event};
ghost use Rattle.saga_history.specs.declared.transitions.Transition.{Transition};
ghost use Rattle.saga_core.specs.Book.{Book};
ghost use Rattle.saga_core.specs.Laws.{HasOneAdoptRefusal, HasOneDropRefusal, HasOneOpenRefusal, HasOneReportRefusal, HasOneSagaRefusal, HasOneTakeRefusal};
ghost use Rattle.saga_core.specs.Replays.{IsReplayed};

/// For every history of a book, at most one refusal of each call applies, because a later cause
/// excludes the earlier ones.
#[tactic(auto, using(crate::proofs::LawLemmas::one_open_refusal, crate::proofs::LawLemmas::one_take_refusal, crate::proofs::LawLemmas::one_report_refusal, crate::proofs::LawLemmas::one_saga_refusal, crate::proofs::LawLemmas::one_drop_refusal, crate::proofs::LawLemmas::one_adopt_refusal, crate::proofs::ReplayLawLemmas::only_for_memory))]
pub fn refusal_laws()
    ensures open { (b : Book) (k : ℕ) → HasOneOpenRefusal b k }
    ensures take { (b : Book) (i s : ℕ) (t : Transition) → HasOneTakeRefusal b i s t }
    ensures report { (b : Book) (i s : ℕ) (x : StepState) → HasOneReportRefusal b i s x }
    ensures saga { (b : Book) (i : ℕ) (c : Change) → HasOneSagaRefusal b i c }
    ensures dropping { (b : Book) (i : ℕ) → HasOneDropRefusal b i }
    ensures adopt { (b : Book) (i : ℕ) (c : Situation) → HasOneAdoptRefusal b i c }
    ensures replay { (shelf : List Contents) (first stride : ℕ) (events : List Event)
        → IsReplayed shelf first stride events }
{}
